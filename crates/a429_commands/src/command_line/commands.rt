//! The commands.

use a429_side::Side;
use a429_view::Span;

/// The words of a command on a certificate: the paths of a profile, of a recording, and of the certificate that
/// explains it.
#[derive(Clone, Copy)]
pub struct Claim<'a> {
    pub profile: &'a str,
    pub recording: &'a str,
    pub certificate: &'a str,
}

/// The words of a command that puts a recording into a folder: the paths of a profile, of the recording, and of the folder.
#[derive(Clone, Copy)]
pub struct IntoFolder<'a> {
    pub profile: &'a str,
    pub recording: &'a str,
    pub folder: &'a str,
}

/// A command of the program, with its words.
#[derive(Drop)]
pub enum Command<'a> {
    /// `--help` or `-h`: lists the commands.
    Help,
    /// `version`: names the version of the program, and those of the certificates that it reads.
    Version,
    /// `word HEX`: shows what a word holds.
    Word(&'a str),
    /// `labels PROFILE`: lists the label table of a profile.
    Labels(&'a str),
    /// `show PROFILE REC`: shows the words of a recording by a profile.
    Show {
        profile: &'a str,
        recording: &'a str,
    },
    /// `forms PROFILE REC`: writes what each word of a recording is to the transfer of a profile.
    Forms {
        profile: &'a str,
        recording: &'a str,
    },
    /// `survey PROFILE REC`: counts what a recording has.
    Survey {
        profile: &'a str,
        recording: &'a str,
    },
    /// `trace PROFILE REC`: says what a recording implies of its sink, word after word.
    Trace {
        profile: &'a str,
        recording: &'a str,
    },
    /// `blocks PROFILE REC`: writes a row for each attempt to send a block.
    Blocks {
        profile: &'a str,
        recording: &'a str,
    },
    /// `sink PROFILE REC`: judges the sink of a recording by itself.
    Sink {
        profile: &'a str,
        recording: &'a str,
    },
    /// `why PROFILE REC`: says what the word of an impossible recording is held against.
    Why {
        profile: &'a str,
        recording: &'a str,
    },
    /// `history PROFILE REC DIR`: puts a recording that need not be of one run in pieces, into the folder DIR, with the files that are
    /// sure of each.
    History(IntoFolder<'a>),
    /// `keep PROFILE REC`: writes a recording without the entries that its transfer does not need.
    Keep {
        profile: &'a str,
        recording: &'a str,
    },
    /// `cut PROFILE REC DIR [MOST]`: writes the parts of a recording, with at most so many entries each, into the folder
    /// DIR.
    Cut {
        profile: &'a str,
        recording: &'a str,
        folder: &'a str,
        most: usize,
    },
    /// `side PROFILE REC LINE OUT [ANSWER]`: writes the words of one direction of a recording to OUT.
    Side {
        profile: &'a str,
        recording: &'a str,
        side: Side,
        new_rec: &'a str,
    },
    /// `import MAP EXPORT OUT`: writes the recording that an export of another program is, by a map, to OUT.
    Import {
        map: &'a str,
        export: &'a str,
        new_rec: &'a str,
    },
    /// `check PROFILE REC CERT`: finds a certificate for a recording, and writes it to CERT.
    Check(Claim<'a>),
    /// `decide PROFILE REC CERT`: as `check`; where that is no yes, contradictions, and where it has a doubt a search for a
    /// run, and then attempts to send one unit that no unit has.
    Decide(Claim<'a>),
    /// `extract PROFILE REC CERT DIR`: takes out the files that crossed, into the folder DIR.
    Extract {
        claim: Claim<'a>,
        folder: &'a str,
    },
    /// `verify PROFILE REC CERT`: holds a certificate against a recording.
    Verify(Claim<'a>),
    /// `series PROFILE DIR`: holds the certificates of a recording's parts against them, as one run.
    Series {
        profile: &'a str,
        folder: &'a str,
    },
    /// `units PROFILE REC CERT`: lists the link data units that a certificate loads, a row for each.
    Units(Claim<'a>),
    /// `picture PROFILE REC CERT FROM TO`: draws the steps of the entries FROM to TO.
    Picture {
        claim: Claim<'a>,
        span: Span,
    },
    /// `upgrade CERT OUT`: writes a certificate as one of version 2 to OUT.
    Upgrade {
        cert: &'a str,
        new_cert: &'a str,
    },
    /// `pack REC`: writes a recording in binary.
    Pack(&'a str),
    /// `make PROFILE FILE..`: writes the recording of a transfer of these files.
    Make {
        profile: &'a str,
        files: Vec<&'a str>,
    },
}
