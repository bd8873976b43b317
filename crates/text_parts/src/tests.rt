//! Texts by hand.
use crate::text::Text;
use std::test::Fail;

#[test]
fn pieces_follow_one_another(rt: HostRuntime) -> Result<(), Fail> {
    let alloc = rt.alloc();
    let mut text = Text::of(alloc, "a")?;
    text.push_number(alloc, 1_440)?;
    text.push_byte(b' ')?;
    text.push_clock(alloc, 605)?;
    text.push_byte(b' ')?;
    text.push_total(65)?;
    text.push_byte(b' ')?;
    text.push_total(1_440)?;
    text.push_byte(b' ')?;
    text.push_time(1_440)?;
    text.push_printable(alloc, "\u{e9}~ \n".as_bytes())?;
    assert_eq!(rt;
        text.as_bytes(),
        "a1440 10:05 01:05 24:00 2000-01-02T00:00??~ ?".as_bytes()
    );
    Ok(())
}
