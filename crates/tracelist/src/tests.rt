use crate::window::Windows;
use lines::trace_lines::ItemLine;
use std::test::Fail;
use trace::item::Call;
use values::hint_set::HintSet;

fn read(page: u16) -> Result<ItemLine, Fail> {
    Ok(ItemLine {
        place: 5,
        call: Call::Read,
        page,
        hints: HintSet::new(0, &[1])?,
    })
}

#[test]
fn a_full_window_is_forgotten(rt: HostRuntime) -> Result<(), Fail> {
    let mut windows = Windows::new(rt.alloc(), 2);
    windows.note(read(10)?, 1)?;
    windows.note(read(20)?, 2)?;
    assert_eq!(rt; windows.pages.countings().len(), 2);
    windows.note(read(30)?, 3)?;
    assert_eq!(rt; windows.pages.countings().len(), 1);
    assert_eq!(rt; windows.hints.countings().len(), 1);
    Ok(())
}
