// Pages and cells on examples worked out by hand.
#![tactic(auto)]

#[cfg(test)]
mod tests {
    use std::test::Fail;
    use sums::cells::{cell_of, page_of, place_of, slot_of};
    use sums::pages::{PageError, decode_page, encode_page};

    #[test]
    fn page_by_hand(rt: HostRuntime) -> Result<(), Fail> {
        let mut sums = [0u64; 128];
        sums[0] = 258;
        sums[127] = 0x0102_0304_0506_0708;
        let mut counts = [0u64; 128];
        counts[0] = 2;
        counts[127] = 70_000;
        let mut out = [9u8; 1540];
        encode_page(&sums, &counts, &mut out)?;
        assert!(rt; &out[0..16] == [2, 1, 0, 0, 0, 0, 0, 0, 0, 0, 0, 0, 0, 0, 0, 0].as_slice());
        assert!(rt; &out[1016..1028] == [8, 7, 6, 5, 4, 3, 2, 1, 2, 0, 0, 0].as_slice());
        assert!(rt; &out[1532..1540] == [112, 17, 1, 0, 9, 9, 9, 9].as_slice());
        let mut sums_back = [1u64; 128];
        let mut counts_back = [1u64; 128];
        decode_page(&out[0..1536], &mut sums_back, &mut counts_back)?;
        assert!(rt; &sums_back == &sums);
        assert!(rt; &counts_back == &counts);
        Ok(())
    }

    #[test]
    fn refused_page(rt: HostRuntime) {
        let mut sums = [5u64; 128];
        let mut counts = [6u64; 128];
        let mut out = [9u8; 1537];
        assert_eq!(rt;
            encode_page(&sums[0..127], &counts, &mut out),
            Err(PageError::RowLength)
        );
        assert_eq!(rt;
            encode_page(&sums, &counts, &mut out[0..1535]),
            Err(PageError::ByteLength)
        );
        assert!(rt; &out == &[9u8; 1537]);
        assert_eq!(rt;
            decode_page(&out, &mut sums, &mut counts),
            Err(PageError::ByteLength)
        );
        assert!(rt; &sums == &[5u64; 128]);
    }

    #[test]
    fn places_and_cells(rt: HostRuntime) {
        assert_eq!(rt; page_of(10), 2);
        assert_eq!(rt; slot_of(10), 1);
        assert_eq!(rt; cell_of(10), 257);
        assert_eq!(rt; place_of(257), 10);
        assert_eq!(rt; cell_of(1023), 1023);
        assert_eq!(rt; cell_of(8), 1);
    }
}
