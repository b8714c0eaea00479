use cutting::heading::KindLetter;
use cutting::lines::Lines;
use exact::report::Report;
use placing::input::open_input;
use std::test::Fail;

// The number that an input is refused with, if it is not opened.
fn refusal(text: &[u8]) -> Option<u8> {
    let mut lines = Lines::of(text);
    let fault = open_input(&mut lines).err()?;
    Some(Report::from(fault).number)
}

#[test]
fn headings(rt: HostRuntime) {
    assert!(rt; refusal(b"R 3").is_none());
    assert!(rt; refusal(b"I 48\nq1=0\n").is_none());
    assert_eq!(rt; refusal(b""), Some(22));
    assert_eq!(rt; refusal(b"\nR 3\n"), Some(22));
    assert_eq!(rt; refusal(b"R 123\n"), Some(22));
    assert_eq!(rt; refusal(b"P 49\n"), Some(1));
    assert_eq!(rt; refusal(b"P 00\n"), Some(1));
    assert_eq!(rt; refusal(&[b'R'; 16385]), Some(26));
}

#[test]
fn labels(rt: HostRuntime) -> Result<(), Fail> {
    let mut lines = Lines::of(b"P 07\n\nq1=0\n\n\nq2=1");
    let heading = open_input(&mut lines)?;
    assert_eq!(rt; heading.kind, KindLetter::P);
    assert_eq!(rt; heading.n, 7);
    let first = lines.next().ok_or("no line")?;
    assert_eq!(rt; first.label, 2);
    assert!(rt; first.bytes == b"q1=0".as_slice());
    let second = lines.next().ok_or("no line")?;
    assert_eq!(rt; second.label, 5);
    assert!(rt; second.bytes == b"q2=1".as_slice());
    assert!(rt; lines.next().is_none());
    Ok(())
}
