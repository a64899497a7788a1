//! Reads the command line: the program's task, and its options.
ghost use Rattle.std.specs.Prelude.{◌≡◌, ◌≤◌, IfOk, codes};
ghost use Rattle.clap.specs.Matches.{first_value, found_of};
ghost use Rattle.cobs_watch.specs.Options.{HasPath, IsOffered};

use crate::help;
use crate::values::{checksum_of, filter_of, number_of, sentinel_of, wrong};
use clap::{Arg, ArgAction, ArgMatches, Command, Error};
use cobs_live::clock::Stamp;
use cobs_live::send;
use cobs_live::shown::{Settings, Style, View};
use std::alloc::Global;

/// The greatest value of the option `--length`, 16 MiB.
const MAX_LENGTH: u64 = 16_777_216;

/// The path that means standard input.
pub(crate) const STDIN: &str = "-";

/// The usage of `show`, as it stands after an error in an option's value.
pub(crate) const SHOW_USAGE: &str = "cobs_watch [OPTIONS] [PATH]";

/// The usage of `send`, as it stands after an error in an option's value.
const SEND_USAGE: &str = "cobs_watch send [OPTIONS]";

/// The version of the release, as in the file VERSION.
const VERSION: &str = "1.0.0";

/// The program's task.
#[derive(Debug, PartialEq, Eq, Drop)]
pub(crate) enum Task<'a> {
    /// Show a stream.
    Show(ShowTask<'a>),

    /// Send lines as frames.
    Send(send::Settings),
}

/// The stream that is shown, and how it is shown.
#[derive(Debug, PartialEq, Eq, Drop)]
pub(crate) struct ShowTask<'a> {
    pub(crate) settings: Settings,

    /// Whether the pieces and bytes are counted at the end.
    pub(crate) count: bool,

    /// Whether dates are in the system's time zone.
    pub(crate) local: bool,

    /// The path of the file that is shown. For standard input, this is `None` or `-`.
    pub(crate) path: Option<&'a str>,
}

/// Returns the task that the words ask for. The first word is the program's own name. `auto_color` says whether lines
/// have colours with `--color auto`.
///
/// If the words are wrong, the result is an error. If the words ask for help or for the version, the result is also an
/// error. The error has the text to print and the exit status.
pub(crate) fn task_of<'a>(
    alloc: Global,
    words: &'a [String],
    auto_color: bool,
) -> Result<Task<'a>, Error>
    ensures offered { IfOk result IsOffered }
{
    let show = Command::new(alloc, "show").about(
        "Show the frames of a line that has a path, or of standard input",
    );
    let show = with_show_options(alloc, show)?;
    let send = Command::new(alloc, "send")
        .about("Send each line of standard input as a frame")
        .after_help(help::SEND_EXAMPLES)
        .arg(flag(alloc, "hex"))?
        .arg(option(alloc, "sentinel", "B").default_value("0"))?
        .arg(baud(alloc))?;
    let send = with_checksum(alloc, send)?;
    let command = with_show_options(alloc, Command::new(alloc, "cobs_watch"))?
        .about("Watch COBS frames on a live line")
        .version(VERSION)
        // Without a subcommand, the program runs `show`. An option before a subcommand is an error, because it would
        // otherwise be ignored.
        .args_conflicts_with_subcommands(true)
        .subcommand(show)?
        .subcommand(send)?;
    let matches = command.try_get_matches_from(words)?;
    if let Some(sent) = matches.subcommand_matches("send") {
        refuse_baud(alloc, SEND_USAGE, sent)?;
        return Ok(Task::Send(send::Settings {
            hex: sent.get_flag("hex"),
            checksum: checksum_of(alloc, SEND_USAGE, sent)?,
            sentinel: sentinel_of(alloc, SEND_USAGE, sent)?,
        }));
    }
    let shown = matches.subcommand_matches("show").unwrap_or(&matches);
    show_task(alloc, shown, auto_color)
}

/// Makes an option without a value.
fn flag<'a>(alloc: Global, name: &'a str) -> Arg<'a> {
    Arg::new(alloc, name)
        .long(name)
        .action(ArgAction::SetTrue)
        .help(help::of(name))
}

/// Makes an option with a value.
fn option<'a>(alloc: Global, name: &'a str, value: &'a str) -> Arg<'a> {
    Arg::new(alloc, name)
        .long(name)
        .value_name(value)
        .help(help::of(name))
}

/// Makes the option `--baud`. Nothing uses its value: the option is only there so that its error can name `stty`.
fn baud<'a>(alloc: Global) -> Arg<'a> {
    option(alloc, "baud", "RATE").hide(true)
}

/// Returns an error if `--baud` is given. The error has the command line of `stty` that sets the rate.
fn refuse_baud(alloc: Global, usage: &str, matches: &ArgMatches<'_>) -> Result<(), Error> {
    let Some(rate) = matches.get_str("baud") else {
        return Ok(());
    };
    wrong(
        alloc,
        usage,
        &format!(in alloc;
            "'--baud' isn't an option, because stty sets up a line. Run this first: stty -F /dev/ttyUSB0 raw -echo {rate}"
        )?,
    )
}

/// Adds the options of `show`, grouped by topic, and the examples of `show` to the command.
fn with_show_options<'a>(alloc: Global, command: Command<'a>) -> Result<Command<'a>, Error> {
    let command = with_style(alloc, command.next_help_heading("Output"))?;
    let command = with_checksum(alloc, command)?;
    let command = with_stream(alloc, command.next_help_heading("The stream"))?;
    Ok(command.after_help(help::SHOW_EXAMPLES))
}

/// Adds to the command the options for the style, the number, the time and the colour of a piece, for the decoded bytes
/// of broken and too long pieces, and for the filter. The texts of `help.rt` name the possible values, so clap doesn't
/// list them again.
fn with_style<'a>(alloc: Global, command: Command<'a>) -> Result<Command<'a>, Error> {
    let style = option(alloc, "as", "STYLE")
        .value_parser(["hex", "text", "raw", "json", "dump", "pcap"].as_slice())
        .hide_possible_values(true)
        .default_value("hex");
    let only = option(alloc, "only", "KIND")
        .short('o')
        .action(ArgAction::Append)
        .value_delimiter(',')
        .value_parser(["message", "broken", "too-long", "bad-crc", "unfinished"].as_slice())
        .hide_possible_values(true);
    let time = option(alloc, "time", "CLOCK")
        .short('t')
        .value_parser(["start", "last", "utc", "local"].as_slice())
        .hide_possible_values(true);
    let color = option(alloc, "color", "WHEN")
        .value_parser(["auto", "always", "never"].as_slice())
        .hide_possible_values(true)
        .default_value("auto");
    let command = command
        .arg(style)?
        .arg(only)?
        .arg(flag(alloc, "number").short('n'))?
        .arg(time)?
        .arg(flag(alloc, "partial"))?;
    Ok(command.arg(color)?)
}

/// Adds the options for the checksum of messages to the command.
fn with_checksum<'a>(alloc: Global, command: Command<'a>) -> Result<Command<'a>, Error> {
    let order = option(alloc, "crc-order", "ORDER")
        .value_parser(["big", "little"].as_slice())
        .hide_possible_values(true)
        .requires_arg("crc")?;
    let command = command.next_help_heading("Checksums");
    Ok(command.arg(option(alloc, "crc", "CHECK"))?.arg(order)?)
}

/// Adds the options for the stream, and its path, to the command.
fn with_stream<'a>(alloc: Global, command: Command<'a>) -> Result<Command<'a>, Error> {
    let length = option(alloc, "length", "N").default_value("65536");
    let path = Arg::new(alloc, "path")
        .value_name("PATH")
        .help(help::of("path"));
    let command = command
        .arg(length)?
        .arg(option(alloc, "sentinel", "B").default_value("0"))?
        .arg(flag(alloc, "skip-first"))?
        .arg(flag(alloc, "count"))?
        .arg(baud(alloc))?;
    Ok(command.arg(path)?)
}

/// Returns the kind of time that is shown for each piece. A capture file always has dates.
fn stamp_of(matches: &ArgMatches<'_>, style: Style) -> Stamp {
    match matches.get_str("time") {
        Some("start") => Stamp::Start,
        Some("last") => Stamp::Last,
        Some(_) => Stamp::Date,
        None if style == Style::Pcap => Stamp::Date,
        None => Stamp::Untimed,
    }
}

/// Returns whether lines have colours.
fn color_of(matches: &ArgMatches<'_>, auto_color: bool) -> bool {
    let color = matches.get_str("color");
    color == Some("always") || auto_color && color != Some("never")
}

/// Returns the task to show a stream, with the options that were given.
fn show_task<'a>(
    alloc: Global,
    matches: &ArgMatches<'a>,
    auto_color: bool,
) -> Result<Task<'a>, Error>
    ensures offered { IfOk result IsOffered }
    ensures path { IfOk result (HasPath (first_value (found_of matches.now) (codes "path"))) }
{
    refuse_baud(alloc, SHOW_USAGE, matches)?;
    let style = style_of(alloc, matches)?;
    // The option `--length` has a default, so there is always a number.
    let length = number_of(alloc, SHOW_USAGE, matches, "length", MAX_LENGTH)?.unwrap_or(0);
    Ok(Task::Show(ShowTask {
        settings: Settings {
            view: View {
                style,
                color: color_of(matches, auto_color),
                // A JSON object has the number as a member.
                number: matches.get_flag("number") && style != Style::Json,
                stamp: stamp_of(matches, style),
                filter: filter_of(matches),
                checksum: checksum_of(alloc, SHOW_USAGE, matches)?,
                partial: matches.get_flag("partial"),
            },
            // `number_of` already limits the length, but none of its clauses says so.
            length: length.min(MAX_LENGTH) as usize,
            sentinel: sentinel_of(alloc, SHOW_USAGE, matches)?,
            skip_first: matches.get_flag("skip-first"),
        },
        count: matches.get_flag("count"),
        local: matches.get_str("time") == Some("local"),
        path: matches.get_str("path"),
    }))
}

/// Returns the style that `--as` asks for.
///
/// # Errors
/// Returns an error if an option that adds to lines is given with a style that has no lines.
fn style_of(alloc: Global, matches: &ArgMatches<'_>) -> Result<Style, Error> {
    let style = match matches.get_str("as") {
        Some("text") => Style::Text,
        Some("raw") => Style::Raw,
        Some("json") => Style::Json,
        Some("dump") => Style::Hexdump,
        Some("pcap") => Style::Pcap,
        Some(_) | None => Style::Hex,
    };
    let adds = matches.get_flag("number")
        || matches.get_flag("partial")
        || matches.get_str("time").is_some();
    if adds && (style == Style::Raw || style == Style::Pcap) {
        return wrong(
            alloc,
            SHOW_USAGE,
            "'--as raw' and '--as pcap' write nothing but messages: '--number', '--time' and '--partial' can't be used with them",
        );
    }
    Ok(style)
}
