//! The texts that `--help` prints.

/// Returns the help for the option with this name.
pub(crate) fn of(name: &str) -> &'static str {
    match name {
        "as" => {
            "How pieces are shown: hex, text (UTF-8 without hidden\ncharacters), raw (messages and newlines), json, dump\n(as hexdump -C) or pcap (for Wireshark)"
        }
        "number" => "Begin each line with its piece's number",
        "partial" => "Show the decoded bytes of broken and too long pieces",
        "time" => {
            "Begin each line with a time: start (since the start),\nlast (since the last piece), or utc or local (a date)"
        }
        "color" => "Colour the kinds: always, never or auto",
        _ => of_pieces(name),
    }
}

/// Returns the help for the option with this name, if the option is about filters, checksums or the stream.
fn of_pieces(name: &str) -> &'static str {
    match name {
        "only" => {
            "Show pieces of this kind, or of these with commas between\nthem: message, broken, too-long, bad-crc, unfinished"
        }
        "crc" => "The checksum at the end of each message: see below",
        "crc-order" => "Its first byte: big (highest) or little (lowest)",
        "length" => "The longest message, in bytes",
        "sentinel" => "The byte that ends each frame",
        "skip-first" => "Skip all bytes up to and including the first sentinel",
        "count" => "Write counts to standard error at the end of the input",
        "path" => "The device, FIFO or file; - or no PATH is standard input",
        "hex" => "Each line has the hexadecimal digits of a message",
        _ => "",
    }
}

/// The examples of `show`, which the help shows below the options.
pub(crate) const SHOW_EXAMPLES: &str = "Examples:
  cobs_watch --time local --number /dev/ttyUSB0
  cobs_watch --as json --only message /dev/ttyUSB0 | tee log.json
  cobs_watch --crc crc-16-modbus --only bad-crc --as dump /dev/ttyUSB0

Set a serial line first: stty -F /dev/ttyUSB0 raw -echo 115200
A device that was unplugged needs stty again: the manual has a loop for this.
A second program sends while the first one shows: cobs_watch send > /dev/ttyUSB0

Checksums: crc-8, crc-16-ccitt-false, crc-16-modbus, crc-16-xmodem,
  crc-16-kermit, crc-16-arc, crc-32, crc-32c; or poly=0x1021,init=0xffff,
  and as needed width=32, xorout=N and reflected, with commas between them";

/// The examples of `send`, which the help shows below the options.
pub(crate) const SEND_EXAMPLES: &str = "Examples:
  printf 'ping\\n' | cobs_watch send > /dev/ttyUSB0
  cobs_watch send --crc crc-16-modbus < lines.txt > /dev/ttyUSB0
  echo '00 ff' | cobs_watch send --hex > /dev/ttyUSB0

Checksums have the names and parameters that cobs_watch --help lists";
