ghost use Rattle.std.specs.Prelude.{◌≡◌};
ghost use Rattle.cmm2_cli.specs.Refusal.{refusal_text, refusal_status, kind_end};

use crate::status::Status;
use cmm_scenario::Kind;

/// Why the program doesn't do what was asked.
#[derive(Clone, Copy, Debug, PartialEq, Eq)]
pub enum Refusal {
    /// The words aren't a command line of the program.
    Words,
    /// The input, or the scenario in it, is longer than the program reads.
    Long,
    /// The input has no report behind a line feed.
    NoReport,
    /// The input isn't JSON.
    NotJson,
}

impl Refusal {
    /// The line that says so.
    pub fn text(self) -> &'static [u8]
        ensures { result.now ≡ refusal_text self }
    {
        match self {
            Refusal::Words => b"refused words\n",
            Refusal::Long => b"refused long\n",
            Refusal::NoReport => b"refused report\n",
            Refusal::NotJson => b"refused json\n",
        }
    }

    pub fn status(self) -> Status
        ensures { result ≡ refusal_status self }
    {
        match self {
            Refusal::Words => Status::Usage,
            Refusal::Long | Refusal::NoReport | Refusal::NotJson => Status::ScenarioRefused,
        }
    }
}

/// The end of the line on a scenario's fault.
pub fn kind_end(kind: Kind) -> &'static [u8]
    ensures { result.now ≡ kind_end kind }
{
    match kind {
        Kind::Missing => b" missing\n",
        Kind::Unknown => b" unknown\n",
        Kind::Type_ => b" type\n",
        Kind::Range => b" range\n",
        Kind::Text => b" text\n",
        Kind::Hex => b" hex\n",
        Kind::Total => b" total\n",
    }
}
