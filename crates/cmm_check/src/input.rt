ghost use Rattle.std.specs.Prelude.{◌≡◌, ◌≤◌, ◌<◌, ◌↔◌, length, IsTrue, IfSome, IfNone, ℕ};
ghost use Rattle.cmm_check.specs.Split.{HasMark, BeginsAt};

/// Whether a line feed and the first words of a report stand here.
fn has_mark(input: &[u8], at: usize) -> bool
    requires { at ≤ length input.now }
    ensures { IsTrue result ↔ HasMark input.now at }
{
    input[at..].starts_with(b"\ncmm2-report ")
}

/// The place of a report's first byte, behind a scenario and a line feed: the first line feed that `cmm2-report`
/// and a space follow. No text of JSON has a line feed inside a string, so such a scenario has no such place.
pub fn split(input: &[u8]) -> Option<usize>
    ensures some { IfSome result (BeginsAt input.now) }
    ensures within { IfSome result (λ start. (0 < start) × (start ≤ length input.now)) }
    ensures none { IfNone result ((start : ℕ) → ¬ (BeginsAt input.now start)) }
{
    for feed in 0..input.len() {
        if has_mark(input, feed) {
            return Some(feed + 1);
        }
    }
    None
}
