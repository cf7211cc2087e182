// Lines with their ends and without, bytes as hexadecimal text, and what is no such text.
#![tactic(auto)]

#[cfg(test)]
mod tests {
    use std::test::Fail;
    use text::{hex, is_torn, unhex, whole};

    const BAD: [(&str, &str); 5] = [
        ("0", "a hexadecimal digit stands alone"),
        ("0a1", "a hexadecimal digit stands alone"),
        ("0g", "this is not a hexadecimal digit"),
        ("/0", "this is not a hexadecimal digit"),
        ("0A", "this is not a hexadecimal digit"),
    ];

    #[test]
    fn bytes_come_back(rt: HostRuntime) -> Result<(), Fail> {
        let heap = rt.alloc();
        let bytes = [0, 10, 27, 159, 255];
        let text = hex(heap, &bytes)?;
        assert_eq!(rt; text.as_str(), "000a1b9fff");
        let Ok(back) = unhex(heap, text.as_bytes()) else {
            return Err(Fail::new("what was written is not read"));
        };
        assert!(rt; back.as_slice() == bytes.as_slice());
        Ok(())
    }

    #[test]
    fn other_words_are_refused(rt: HostRuntime) -> Result<(), Fail> {
        let heap = rt.alloc();
        for (word, told) in BAD {
            let Err(error) = unhex(heap, word.as_bytes()) else {
                return Err(Fail::new(word));
            };
            assert!(rt; format!(in heap; "{error}")?.as_str() == told, "{}", word);
        }
        Ok(())
    }

    // A text, how many of its bytes are whole lines, and whether its last line has no end.
    const TEXTS: [(&str, usize, bool); 6] = [
        ("", 0, false),
        ("\n", 1, false),
        ("ab", 0, true),
        ("ab\n", 3, false),
        ("ab\n\nc", 4, true),
        ("ab\n ", 3, true),
    ];

    #[test]
    fn whole_lines_have_their_ends(rt: HostRuntime) {
        for (text, bytes, torn) in TEXTS {
            assert!(rt; whole(text.as_bytes()) == bytes, "{}", text);
            assert!(rt; is_torn(text.as_bytes()) == torn, "{}", text);
        }
    }
}
