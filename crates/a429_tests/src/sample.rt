//! What the tests share: the sample profile, changes of texts, the transfer of a file of the one byte 41, and readers and
//! writers that fail.

mod changes;
mod fakes;

pub use crate::sample::changes::{joined, with};
pub use crate::sample::fakes::{Endless, Narrow, Shaky};

/// The profile of the examples (examples/sample.toml) without its remarks, a key in a line, so that a change of
/// one line leaves the others as they are.
pub const PROFILE: &str = r#"[transfer]
to_sink = "304"
to_source = "305"
destination = 0x41
first_ldu = 1
final_bit = 25
[types]
full = 0
partial = 1
protocol = 4
sot = 6
eot = 7
ignored = [5]
[codes]
rts = 1
cts = 2
ack = 5
nak = 6
ignored = [3]
[partial]
codes = [1, 2, 3, 4]
[check]
poly = 0x1021
init = 0xFFFF
xor = 0xFFFF
low_first = true
compare = true
[[label]]
octal = "203"
name = "Altitude"
unit = "ft"
kind = "bnr"
bits = 17
range = 131072
decimals = 0
[[label]]
octal = "314"
name = "Heading"
unit = "deg"
kind = "bnr"
bits = 18
range = 180
decimals = 0
[[label]]
octal = "201"
name = "Distance"
unit = "NM"
kind = "bcd"
digits = 5
decimals = 2
[[label]]
octal = "270"
sdi = 1
name = "Status"
unit = ""
kind = "discrete"
flags = [{bit = 11, name = "gear"}, {bit = 12, name = "door"}]
"#;

/// The sections of the profile, without its labels.
pub fn sections() -> &'static str {
    match PROFILE.split_once("[[label]]") {
        Some((sections, _)) => sections,
        None => "",
    }
}

/// Its labels.
pub fn labels() -> &'static str {
    match PROFILE.split_once(sections()) {
        Some((_, labels)) => labels,
        None => "",
    }
}

/// The request to send for a block of three words.
pub const RTS: u32 = 0x4141_0323;

/// The clear to send for it, on bus B.
pub const CTS: u32 = 0xC241_03A3;

/// The start word of unit 1 of file 1.
pub const SOT: u32 = 0x6001_0123;

/// The partial data word of the byte 41.
pub const PART: u32 = 0x1200_4123;

/// The end word of the last unit of a file, with the check word of the byte 41.
pub const EOT: u32 = 0x71A3_F523;

/// The acknowledgement of unit 1 of file 1, on bus B.
pub const ACK: u32 = 0x4501_01A3;

/// A negative answer, on bus B.
pub const NAK: u32 = 0x4600_00A3;

/// The recording of a file of the one byte 41, number 1.
pub const RECORDING: &str = "time,bus,word
0,A,41410323
1000,B,C24103A3
2000,A,60010123
3000,A,12004123
4000,A,71A3F523
5000,B,450101A3
";

/// Its certificate.
pub const CERTIFICATE: &str = "arinc429-cert 1
first 1
L 0 1 A3F5 12004123
a C Q 1 0
k C c 0 0
b C G 0 1
g S0 G 0 0
a S1 G 1 0
k S1 B1 0 0
a S2 B1 1 0
k S2 B2 0 0
a W B2 1 0
k W A 0 0
b W Q 0 1
g I Q 0 0
";
