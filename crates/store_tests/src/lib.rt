// Records, drawers and pages on examples worked out by hand.
#![tactic(auto)]

#[cfg(test)]
mod tests {
    use std::test::Fail;
    use store::drawers::{cursor_drawer, page_drawer, root_drawer};
    use store::records::RecordError;
    use store::{Cursor, PageSet, Record, Root, UnknownSet};

    // Set 2, hour 258, place 70,000 of the row.
    const ROOT: Root = Root {
        set: PageSet::Second,
        hour: 258,
        pos: 70_000,
    };

    #[test]
    fn root_by_hand(rt: HostRuntime) -> Result<(), Fail> {
        let mut out = [9u8; 26];
        ROOT.encode(&mut out)?;
        assert!(rt; &out[0..16] == [2, 0, 0, 0, 0, 0, 0, 0, 2, 1, 0, 0, 0, 0, 0, 0].as_slice());
        assert!(rt; &out[16..26] == [112, 17, 1, 0, 0, 0, 0, 0, 9, 9].as_slice());
        assert_eq!(rt; Root::decode(&out[0..24]), ROOT);
        Ok(())
    }

    #[test]
    fn cursor_by_hand(rt: HostRuntime) -> Result<(), Fail> {
        let cursor = Cursor {
            hour: 0x0102_0304_0506_0708,
            cell: 1023,
        };
        let mut out = [9u8; 17];
        cursor.encode(&mut out)?;
        assert!(rt; &out == &[8, 7, 6, 5, 4, 3, 2, 1, 255, 3, 0, 0, 0, 0, 0, 0, 9]);
        assert_eq!(rt; Cursor::decode(&out[0..16]), cursor);
        Ok(())
    }

    #[test]
    fn no_records(rt: HostRuntime) -> Result<(), Fail> {
        assert_eq!(rt; Root::decode(&[]), Root::ZERO);
        assert_eq!(rt; Cursor::decode(&[]), Cursor::ZERO);
        let mut bytes = [0u8; 25];
        ROOT.encode(&mut bytes)?;
        assert_eq!(rt; Root::decode(&bytes[0..23]), Root::ZERO);
        assert_eq!(rt; Root::decode(&bytes), Root::ZERO);
        assert_eq!(rt; Cursor::decode(&bytes[0..24]), Cursor::ZERO);
        // There is no set of number 3.
        bytes[0] = 3;
        assert_eq!(rt; Root::decode(&bytes[0..24]), Root::ZERO);
        Ok(())
    }

    #[test]
    fn too_short(rt: HostRuntime) {
        let mut out = [9u8; 23];
        assert_eq!(rt; ROOT.encode(&mut out), Err(RecordError::TooShort));
        assert_eq!(rt;
            Cursor::ZERO.encode(&mut out[0..15]),
            Err(RecordError::TooShort)
        );
        assert!(rt; &out == &[9u8; 23]);
    }

    #[test]
    fn drawers_by_number(rt: HostRuntime) {
        assert_eq!(rt; root_drawer(), 0);
        assert_eq!(rt; cursor_drawer(), 2);
        assert_eq!(rt; page_drawer(PageSet::First, 0), Some(8));
        assert_eq!(rt; page_drawer(PageSet::First, 7), Some(15));
        assert_eq!(rt; page_drawer(PageSet::Second, 0), Some(16));
        assert_eq!(rt; page_drawer(PageSet::Second, 7), Some(23));
        assert_eq!(rt; page_drawer(PageSet::First, 8), None);
        assert_eq!(rt; page_drawer(PageSet::None, 0), None);
    }

    #[test]
    fn sets_in_turn(rt: HostRuntime) {
        assert_eq!(rt; PageSet::None.shadow(), PageSet::First);
        assert_eq!(rt; PageSet::First.shadow(), PageSet::Second);
        assert_eq!(rt; PageSet::Second.shadow(), PageSet::First);
        assert_eq!(rt; PageSet::try_from(2), Ok(PageSet::Second));
        assert_eq!(rt; PageSet::try_from(3), Err(UnknownSet(3)));
    }
}
