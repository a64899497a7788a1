//! The values of options.
ghost use Rattle.std.specs.Prelude.{◌<◌, ◌≤◌, IfOk, IfSome, IsErr};

use clap::error::ErrorKind;
use clap::{ArgMatches, Command, Error};
use cobs_live::checksum::Checksum;
use cobs_live::crc::{Crc, Params};
use cobs_live::shown::Filter;
use std::alloc::Global;

/// Returns an error about the command line. `message` is the text of the error, and `usage` is the usage after it.
pub(crate) fn wrong<T>(alloc: Global, usage: &str, message: &str) -> Result<T, Error>
    ensures error { IsErr result }
{
    let mut command = Command::new(alloc, "cobs_watch").override_usage(usage);
    Err(command.error(ErrorKind::ValueValidation, message)?)
}

/// Parses the value of the option with this name as a number: decimal, or hexadecimal after `0x`. Returns `None` if the
/// option isn't given.
///
/// # Errors
/// If the value isn't a number, or if the number is above `max`, returns an error that names the option.
pub(crate) fn number_of(
    alloc: Global,
    usage: &str,
    matches: &ArgMatches<'_>,
    name: &str,
    max: u64,
) -> Result<Option<u64>, Error> {
    let Some(text) = matches.get_str(name) else {
        return Ok(None);
    };
    match parsed(text) {
        Some(number) if number <= max => Ok(Some(number)),
        Some(_) | None => wrong(
            alloc,
            usage,
            &format!(in alloc;
                "the value '{text}' of '--{name}' isn't a number from 0 to {max}, decimal, or hexadecimal after 0x"
            )?,
        ),
    }
}

/// Parses a text as a number: decimal, or hexadecimal after `0x`.
fn parsed(text: &str) -> Option<u64> {
    match text.strip_prefix("0x") {
        Some(digits) => u64::from_str_radix(digits, 16).ok(),
        None => text.parse::<u64>().ok(),
    }
}

/// Returns the value of `--sentinel`.
pub(crate) fn sentinel_of(
    alloc: Global,
    usage: &str,
    matches: &ArgMatches<'_>,
) -> Result<u8, Error> {
    let number = number_of(alloc, usage, matches, "sentinel", 255)?.unwrap_or(0);
    // The conversion never fails, because `number_of` has limited the number to 255.
    Ok(u8::try_from(number).unwrap_or(0))
}

/// Returns the checksum that `--crc` and `--crc-order` ask for, or `None` without `--crc`.
///
/// # Errors
/// Returns an error if the value of `--crc` is neither the name of a checksum nor a list of a checksum's parameters. If
/// a part of the value isn't a parameter, the error names that part.
pub(crate) fn checksum_of(
    alloc: Global,
    usage: &str,
    matches: &ArgMatches<'_>,
) -> Result<Option<Checksum>, Error> {
    let Some(text) = matches.get_str("crc") else {
        return Ok(None);
    };
    let params = params_of(alloc, usage, text)?;
    let little = match matches.get_str("crc-order") {
        Some(order) => order == "little",
        None => params.reflected,
    };
    Ok(Some(Checksum::new(params, little)))
}

/// The names of checksums.
const NAMES: &str =
    "crc-8, crc-16-ccitt-false, crc-16-modbus, crc-16-xmodem, crc-16-kermit, crc-16-arc, crc-32, crc-32c";

/// Returns the checksum with this name.
fn crc_of(name: &str) -> Option<Crc> {
    match name {
        "crc-8" => Some(Crc::Crc8),
        "crc-16-ccitt-false" => Some(Crc::Crc16CcittFalse),
        "crc-16-modbus" => Some(Crc::Crc16Modbus),
        "crc-16-xmodem" => Some(Crc::Crc16Xmodem),
        "crc-16-kermit" => Some(Crc::Crc16Kermit),
        "crc-16-arc" => Some(Crc::Crc16Arc),
        "crc-32c" => Some(Crc::Crc32c),
        "crc-32" => Some(Crc::Crc32),
        _ => None,
    }
}

/// The parameters of a checksum, as the user writes them. The catalogue of CRC algorithms lists them in the same form.
#[derive(Drop)]
struct Written {
    width: Option<u64>,
    poly: Option<u64>,
    init: Option<u64>,
    xorout: Option<u64>,
    reflected: bool,
}

impl Written {
    /// Parses a part of the value of `--crc`, such as `poly=0x1021`. Returns whether the part is a parameter that
    /// wasn't given before.
    fn take(&mut self, part: &str) -> bool {
        if part == "reflected" {
            let first = !self.reflected;
            self.reflected = true;
            return first;
        }
        let Some((name, value)) = part.split_once('=') else {
            return false;
        };
        let Some(number) = parsed(value) else {
            return false;
        };
        match name {
            "width" => self.width.replace(number).is_none(),
            "poly" => self.poly.replace(number).is_none(),
            "init" => self.init.replace(number).is_none(),
            "xorout" => self.xorout.replace(number).is_none(),
            _ => false,
        }
    }
}

/// Returns the parameters of a checksum. The text is the name of the checksum, or a list of its parameters, such as
/// `poly=0x1021,init=0xffff`.
fn params_of(alloc: Global, usage: &str, text: &str) -> Result<Params, Error>
    ensures sized { IfOk result (λ params. (0 < params.size) × (params.size ≤ 4)) }
{
    if let Some(crc) = crc_of(text) {
        return Ok(crc.params());
    }
    let mut written = Written {
        width: None,
        poly: None,
        init: None,
        xorout: None,
        reflected: false,
    };
    for part in text.split(',') {
        if !written.take(part) {
            return wrong(
                alloc,
                usage,
                &format!(in alloc;
                    "'{part}' of '--crc' is neither the name of a checksum ({NAMES}) nor poly=N, width=N, init=N, xorout=N or reflected, each given once"
                )?,
            );
        }
    }
    match sized(&written) {
        Some(params) => Ok(params),
        None => wrong(
            alloc,
            usage,
            "'--crc' needs a poly above 0 and a width of 8, 16, 24 or 32 bits, in which poly, init and xorout fit",
        ),
    }
}

/// Converts the parameters that the user wrote to [`Params`]. Returns `None` if the width isn't 8, 16, 24 or 32 bits,
/// if the polynomial is 0, or if a parameter doesn't fit the width.
fn sized(written: &Written) -> Option<Params>
    ensures sized { IfSome result (λ params. (0 < params.size) × (params.size ≤ 4)) }
{
    let size: usize = match written.width.unwrap_or(16) {
        8 => 1,
        16 => 2,
        24 => 3,
        32 => 4,
        _ => return None,
    };
    // A register has 32 bits. In `Params`, the polynomial and the initial value are shifted to the high bits of the
    // register.
    let spare = 32 - 8 * size;
    let poly = u32::try_from(written.poly.unwrap_or(0)).ok()?;
    let init = u32::try_from(written.init.unwrap_or(0)).ok()?;
    let xorout = u32::try_from(written.xorout.unwrap_or(0)).ok()?;
    let max = u32::MAX >> spare;
    if poly == 0 || poly > max || init > max || xorout > max {
        return None;
    }
    Some(Params {
        size,
        poly: poly << spare,
        init: init << spare,
        reflected: written.reflected,
        xorout,
    })
}

/// Returns the filter that `--only` asks for.
pub(crate) fn filter_of(matches: &ArgMatches<'_>) -> Filter {
    let kinds = matches.get_strs("only").unwrap_or(&[]);
    Filter {
        messages: kinds.is_empty() || kinds.contains(&"message"),
        broken: kinds.is_empty() || kinds.contains(&"broken"),
        too_long: kinds.is_empty() || kinds.contains(&"too-long"),
        bad_crc: kinds.is_empty() || kinds.contains(&"bad-crc"),
        unfinished: kinds.is_empty() || kinds.contains(&"unfinished"),
    }
}
