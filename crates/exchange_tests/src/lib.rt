// Letters, on examples worked out by hand.
#![tactic(auto)]

#[cfg(test)]
mod tests {
    use exchange::{Head, LetterError, Statement, read_head, read_letter, write_letter};
    use std::test::Fail;

    const ROW: [u64; 128] = [5; 128];

    // The sender woke, has told all before hour 258, and reads hour 70,000.
    const BEGUN: Head = Head {
        woke: true,
        passed: 258,
        statement: Statement::Begun { hour: 70_000 },
    };

    // Hour 3 is whole, and the next one is hour 4.
    const WHOLE: Head = Head {
        woke: false,
        passed: 3,
        statement: Statement::Whole {
            hour: 3,
            next: Some(4),
        },
    };

    #[test]
    fn begun_by_hand(rt: HostRuntime) -> Result<(), Fail> {
        let mut out = [9u8; 1562];
        assert_eq!(rt; write_letter(BEGUN, &ROW, &ROW, &mut out), 18);
        assert!(rt; &out[0..10] == [1, 1, 2, 1, 0, 0, 0, 0, 0, 0].as_slice());
        assert!(rt; &out[10..20] == [112, 17, 1, 0, 0, 0, 0, 0, 9, 9].as_slice());
        let (head, page) = read_head(&out[0..18])?;
        assert_eq!(rt; head, BEGUN);
        assert_eq!(rt; page.len(), 0);
        Ok(())
    }

    #[test]
    fn whole_by_hand(rt: HostRuntime) -> Result<(), Fail> {
        let mut sums = [0u64; 128];
        sums[127] = 0x0102_0304_0506_0708;
        let mut counts = [0u64; 128];
        counts[0] = 2;
        let mut out = [9u8; 1563];
        assert_eq!(rt; write_letter(WHOLE, &sums, &counts, &mut out), 1562);
        assert!(rt; &out[0..10] == [2, 0, 3, 0, 0, 0, 0, 0, 0, 0].as_slice());
        assert!(rt; &out[10..26] == [3, 0, 0, 0, 0, 0, 0, 0, 4, 0, 0, 0, 0, 0, 0, 0].as_slice());
        assert!(rt; &out[1042..1054] == [8, 7, 6, 5, 4, 3, 2, 1, 2, 0, 0, 0].as_slice());
        assert_eq!(rt; out[1562], 9);
        let mut sums_back = ROW;
        let mut counts_back = ROW;
        assert_eq!(rt;
            read_letter(&out[0..1562], &mut sums_back, &mut counts_back)?,
            WHOLE
        );
        assert!(rt; &sums_back == &sums);
        assert!(rt; &counts_back == &counts);
        Ok(())
    }

    #[test]
    fn last_and_ended(rt: HostRuntime) -> Result<(), Fail> {
        let statement = Statement::Whole {
            hour: 3,
            next: None,
        };
        let last = Head { statement, ..WHOLE };
        let mut out = [9u8; 1562];
        assert_eq!(rt; write_letter(last, &ROW, &ROW, &mut out), 1554);
        assert_eq!(rt; read_head(&out[0..1554])?.0, last);
        let statement = Statement::Ended;
        let ended = Head { statement, ..WHOLE };
        assert_eq!(rt; write_letter(ended, &ROW, &ROW, &mut out), 10);
        assert!(rt; &out[0..10] == [4, 0, 3, 0, 0, 0, 0, 0, 0, 0].as_slice());
        assert_eq!(rt; read_head(&out[0..10])?.0, ended);
        Ok(())
    }

    // What a letter that is none is refused for, with the rows as they were.
    fn refused(bytes: &[u8]) -> Option<LetterError> {
        let mut sums = ROW;
        let mut counts = ROW;
        let answer = read_letter(bytes, &mut sums, &mut counts).err();
        if sums == ROW && counts == ROW {
            answer
        } else {
            None
        }
    }

    #[test]
    fn no_letters(rt: HostRuntime) {
        let mut out = [9u8; 1563];
        let _len = write_letter(WHOLE, &ROW, &ROW, &mut out);
        assert_eq!(rt; refused(&[]), Some(LetterError::TooShort));
        assert_eq!(rt; refused(&out[0..17]), Some(LetterError::TooShort));
        assert_eq!(rt; refused(&out[0..1561]), Some(LetterError::TooShort));
        assert_eq!(rt; refused(&out), Some(LetterError::TooLong));
        // The next hour is 2^62.
        out[18] = 0;
        out[25] = 64;
        assert_eq!(rt; refused(&out[0..1562]), Some(LetterError::HourTooLarge));
        // What is passed is 2^62 + 3.
        out[9] = 64;
        assert_eq!(rt; refused(&out[0..1562]), Some(LetterError::PassedTooLarge));
        out[1] = 2;
        assert_eq!(rt; refused(&out[0..1562]), Some(LetterError::UnknownFlag));
        out[0] = 5;
        assert_eq!(rt; refused(&out[0..1562]), Some(LetterError::UnknownKind));
    }
}
