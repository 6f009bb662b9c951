use crate::{Line, line_of};
use std::test::Fail;

#[test]
fn reads_the_words_of_the_line(rt: HostRuntime) -> Result<(), Fail> {
    let start = u64::MAX;
    let table: [(&[&str], Option<Line>); 23] = [
        (&["replay"], Some(Line::Replay)),
        (&["run"], Some(Line::Run)),
        (&["check"], Some(Line::Check)),
        (&["gen", "7", "8"], Some(Line::Gen { start: 7, size: 8 })),
        (
            &["gen", "18446744073709551615", "20000"],
            Some(Line::Gen {
                start,
                size: 20_000,
            }),
        ),
        (
            &["demo", "7", "2000"],
            Some(Line::Demo {
                start: 7,
                size: 2000,
            }),
        ),
        (&["demo", "7"], None),
        (&[], None),
        (&[""], None),
        (&["replay", "x"], None),
        (&["run", "x"], None),
        (&["check", "x"], None),
        (&["gen", "7", "7"], None),
        (&["gen", "7", "20001"], None),
        (&["gen", "07", "8"], None),
        (&["gen", "+7", "8"], None),
        (&["gen", "", "8"], None),
        (&["gen", "7", "8", "9"], None),
        (&["gen", "18446744073709551616", "8"], None),
        (&["-h"], None),
        (&["help"], None),
        (&["--version"], None),
        (&["replay", "--"], None),
    ];
    for (given, wanted) in table {
        let mut words = Vec::new(rt.alloc());
        for word in given {
            words.push(String::from_str(rt.alloc(), word)?)?;
        }
        assert_eq!(rt; line_of(rt.alloc(), words.as_slice())?, wanted, "{given:?}");
    }
    Ok(())
}
