use crate::case::prints;
use std::test::Fail;

#[test]
fn longest_input(rt: HostRuntime) -> Result<(), Fail> {
    let mut text = b"R 1".to_vec(rt.alloc())?;
    text.extend_from_slice(&[b'\n'; 16377])?;
    text.extend_from_slice(b"q1=5")?;
    prints(&rt, rt.alloc(), &text, b"16377 held 1\nq1 = 5\n")?;
    text.push(b'\n')?;
    prints(&rt, rt.alloc(), &text, b"0 refused 26 0\n")
}

#[test]
fn too_long_before_heading(rt: HostRuntime) -> Result<(), Fail> {
    let text = [b'?'; 16385];
    prints(&rt, rt.alloc(), &text[0..16384], b"0 refused 22 0\n")?;
    prints(&rt, rt.alloc(), &text, b"0 refused 26 0\n")
}

#[test]
fn longest_line(rt: HostRuntime) -> Result<(), Fail> {
    let mut text = b"R 1\nq1=1".to_vec(rt.alloc())?;
    text.extend_from_slice(&[b' '; 196])?;
    prints(&rt, rt.alloc(), &text, b"1 held 1\nq1 = 1\n")?;
    text.push(b' ')?;
    prints(&rt, rt.alloc(), &text, b"1 refused 22 201\n")
}
