// Sums as rows, and a wall compared with them.
#![tactic(auto)]

#[cfg(test)]
mod tests {
    use rows::{Row, WallError, compare, listed, sums_of};
    use std::alloc::{AllocError, Global};
    use std::test::Fail;
    use sums::Reading;

    const ROWS: [Row; 2] = [
        Row {
            hour: 0,
            place: 1,
            sum: 11,
        },
        Row {
            hour: 2,
            place: 0,
            sum: 5,
        },
    ];

    // A gauge of three readings, whose sums are the rows above.
    fn gauges(heap: Global) -> Result<Vec<Vec<Reading>>, AllocError> {
        let mut gauge = Vec::new(heap);
        for (time, place, value) in [(20, 1, 4), (99, 1, 7), (250, 0, 5)] {
            if let Ok(reading) = Reading::new(time, place, value) {
                gauge.push(reading)?;
            }
        }
        Ok(vec![in heap; gauge]?)
    }

    #[test]
    fn sums_are_listed_in_order(rt: HostRuntime) -> Result<(), Fail> {
        let heap = rt.alloc();
        let Ok(sums) = sums_of(heap, gauges(heap)?.as_slice()) else {
            return Err(Fail::new("these sums fit"));
        };
        assert!(rt; listed(heap, &sums)?.as_slice() == ROWS.as_slice());
        Ok(())
    }

    #[test]
    fn a_row_has_its_key_and_its_text(rt: HostRuntime) -> Result<(), Fail> {
        let [row, _] = ROWS;
        assert!(rt; row.key() == (0, 1));
        assert!(rt; Row::from((&(0, 1), &11)) == row);
        assert_eq!(rt;
            format!(in rt.alloc(); "{row}")?.as_str(),
            "hour 0 place 1: 11"
        );
        Ok(())
    }

    #[test]
    fn what_is_not_told_is_found(rt: HostRuntime) -> Result<(), Fail> {
        let heap = rt.alloc();
        let [first, second] = ROWS;
        let wrong = Row { sum: 6, ..second };
        let Ok(comparison) = compare(heap, gauges(heap)?.as_slice(), &[wrong]) else {
            return Err(Fail::new("there is memory for this"));
        };
        assert_eq!(rt; comparison.wrong, 1);
        assert!(rt; comparison.untold.as_slice() == [first].as_slice());
        Ok(())
    }

    #[test]
    fn errors_have_their_text(rt: HostRuntime) -> Result<(), Fail> {
        for (error, text) in [
            (WallError::Memory, "there is not enough memory"),
            (WallError::SumTooLarge, "a sum does not fit in 64 bits"),
        ] {
            assert_eq!(rt; format!(in rt.alloc(); "{error}")?.as_str(), text);
        }
        Ok(())
    }
}
