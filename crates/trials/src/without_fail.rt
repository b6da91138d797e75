// The calls of the second implementation that no test program makes, where there is memory: what they give is written out.
use reference::codings::Coding;
use reference::encodings::Encoding;
use reference::forms::Sign;
use reference::lines::{Line, Signed, read, read_literals};
use reference::program::{output, read_first};
use reference::readings::Readings;
use reference::refusals::Refused;
use reference::sheet::Sheet;
use reference::tally::{Case, Score, Tally};
use std::fmt::Write;

#[test]
fn prints_what_the_program_prints(rt: HostRuntime) {
    for (input, wanted) in [
        (
            "m FR\nd 3\ns +1:2\nd 1\n",
            "c refused 4 1 W 1 0\np cnf 2 3\n-2 1 0\n1 0\n-2 0\n",
        ),
        ("m S\nd 2\ns -1:2\n", "p cnf 2 3\n1 2 0\n-1 -2 0\n-2 0\n"),
        ("m X\n", "c refused 1 15 L 0 0\n"),
    ] {
        let printed = output(rt.alloc(), input.as_bytes());
        assert_eq!(rt; printed.as_slice(), wanted.as_bytes());
    }
}

#[test]
fn reads_first_lines(rt: HostRuntime) {
    for (input, wanted) in [
        ("m HR\nd 2\n", Some(5)),
        ("m S", Some(4)),
        ("m HRS\n", None),
        ("", None),
    ] {
        let length = read_first(input.as_bytes()).map(|(_, length)| length);
        assert_eq!(rt; length, wanted);
    }
}

#[test]
fn lists_axioms(rt: HostRuntime) {
    let mut words = Vec::new(rt.alloc());
    Coding::new(Encoding::FR, 3).put_axioms(&mut words);
    Coding::new(Encoding::S, 2).put_axioms(&mut words);
    assert_eq!(rt; words.as_slice(), [-2, 1, 0, 1, 2, 0, -1, -2, 0].as_slice());
}

#[test]
fn reads_rows(rt: HostRuntime) {
    let readings = Readings::new(rt.alloc(), Coding::new(Encoding::FL, 3));
    assert_eq!(rt; readings.value(&[0, 0]), Some(1));
    assert_eq!(rt; readings.value(&[1, 0]), Some(1));
    assert_eq!(rt; readings.value(&[0, 1]), Some(2));
    assert_eq!(rt; readings.value(&[1, 1]), Some(3));
    assert_eq!(rt; readings.value(&[1]), None);
}

#[test]
fn enters_and_notes(rt: HostRuntime) {
    let mut sheet = Sheet::new(rt.alloc(), Encoding::FR, 5);
    let literal = Signed {
        sign: Sign::Plus,
        variable: 1,
        value: 2,
    };
    assert!(rt; sheet.declare(3).is_ok());
    assert!(rt;
        matches!(
            sheet.state(&[literal]),
            Err(Refused::Words { wanted: 4, left: 2 })
        )
    );
    assert!(rt; sheet.state(&[]).is_ok());
    assert!(rt; matches!(sheet.declare(1), Err(Refused::Size(1))));
    sheet.note(2, Refused::Words { wanted: 4, left: 2 });
    sheet.note(4, Refused::Size(1));
    let mut printed = Vec::new(rt.alloc());
    sheet.print(&mut printed);
    sheet.print(&mut printed);
    let printed = printed.as_slice();
    let (first, second) = printed.split_at(printed.len() / 2);
    assert_eq!(rt; first, second);
    assert_eq!(rt;
        first,
        b"c refused 2 8 S 4 2\nc refused 4 1 W 1 0\np cnf 2 2\n-2 1 0\n0\n".as_slice()
    );
}

#[test]
fn reports_groups(rt: HostRuntime) {
    let mut tally = Tally::new(rt.alloc());
    let same = Case {
        input: b"i",
        wanted: b"a",
        made: b"a",
    };
    let other = Case { made: b"b", ..same };
    tally.compare(&same);
    tally.count(Score::of(false), &other);
    tally.close("first");
    tally.compare(&same);
    tally.close("second");
    tally.finish();
    let mut full = Tally::new(rt.alloc());
    full.compare(&same);
    full.close("third");
    full.finish();
    assert_eq!(rt;
        full.report.as_str(),
        "third: 1 tried, 1 agree\nall agree\n"
    );
    assert_eq!(rt;
        tally.report.as_str(),
        "first: 2 tried, 1 agree\n  input:\n    i\n  wanted, near the first difference:\n    a\n  made:\n    b\nsecond: 1 tried, 1 agree\nDISAGREE\n"
    );
}

// More literals than a clause may have: the line has their number, and they are read one by one.
#[test]
fn reads_many_literals(rt: HostRuntime) {
    let line =
        "s +1:1 -2:2 +3:3 -4:4 +5:5 -6:6 +7:7 -8:8 +9:9 -10:1 +11:2 -12:3 +13:4 -14:5 +15:6 -16:7 +255:64";
    assert!(rt;
        matches!(read(line.as_bytes()), Ok(Line::State(clause)) if clause.count == 17 && clause.literals().is_none())
    );
    let mut text = String::new(rt.alloc());
    for Signed {
        sign,
        variable,
        value,
    } in read_literals(line.as_bytes()) {
        let sign = if sign == Sign::Plus { '+' } else { '-' };
        assert!(rt; write!(text, " {sign}{variable}:{value}").is_ok());
    }
    assert_eq!(rt; Some(text.as_str()), line.strip_prefix('s'));
    for (line, count) in [
        ("s", 0),
        ("d 5", 0),
        ("", 0),
        ("s +1:2", 1),
        ("s +1:2 +:2 +1:3", 1),
    ] {
        assert_eq!(rt; read_literals(line.as_bytes()).count(), count);
    }
}
