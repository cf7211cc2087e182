// Rivers as text: each kind of mistake, and a good river.
#![tactic(auto)]

#[cfg(test)]
mod tests {
    use river::{InFile, Item, parse, parse_within};
    use std::test::Fail;

    // A text, and what is said of it where a gauge has at most two readings.
    const BAD: [(&str, &str); 25] = [
        ("gague 1", "line 1: no line begins with this word"),
        ("\n# a comment\ngauge # 1", "line 3: a number is missing"),
        (
            "gauge one",
            "line 1: this is no number: a number is digits alone, below 2^64",
        ),
        (
            "happens\npoke 18446744073709551616",
            "line 2: this is no number: a number is digits alone, below 2^64",
        ),
        (
            "gauge 0\n12x 1 1",
            "line 2: this is no number: a number is digits alone, below 2^64",
        ),
        (
            "gauge 0\n-10 1 1",
            "line 2: this is no number: a number is digits alone, below 2^64",
        ),
        (
            "happens\ncalm +10 1",
            "line 2: this is no number: a number is digits alone, below 2^64",
        ),
        (
            "\u{feff}# a river\ngauge 1",
            "line 1: a byte order mark stands before this line: save the file without one",
        ),
        ("happens now", "line 1: there is a word too many"),
        ("gauge 8", "line 1: there is no such gauge"),
        ("happens\nbrings 0 8", "line 2: there is no such machine"),
        (
            "happens\nworks 1 4294967297",
            "line 2: these are too many acts",
        ),
        ("happens\ncalm 65537 1", "line 2: these are too many rounds"),
        (
            "gauge 1\n4611686018427387904 0 0",
            "line 2: this time is too large",
        ),
        ("gauge 1\n0 1024 0", "line 2: there is no such place"),
        ("gauge 1\n0 0 4294967296", "line 2: this value is too large"),
        (
            "gauge 1\n5 0 0\n4 0 0",
            "line 3: this time is before the one above it",
        ),
        (
            "gauge 1\nhappens\ngauge 1",
            "line 3: this gauge was named before",
        ),
        ("happens\n\nhappens", "line 3: `happens` was given before"),
        ("1 2 3", "line 1: this reading belongs to no gauge"),
        (
            "gauge 1\nhappens\n1 2 3",
            "line 3: this reading belongs to no gauge",
        ),
        ("falls 1", "line 1: this belongs below `happens`"),
        ("gauge 3\nfalls 1", "line 2: this belongs below `happens`"),
        (
            "gauge 2\n1 1 1\n1 1 1\n1 1 1",
            "line 4: this gauge has too many readings",
        ),
        ("gauge 2\n1 1 1\n2 2", "line 3: a number is missing"),
    ];

    #[test]
    fn mistakes_are_told(rt: HostRuntime) -> Result<(), Fail> {
        let heap = rt.alloc();
        for (text, told) in BAD {
            let Err(mistake) = parse_within(heap, text, 2) else {
                return Err(Fail::new(text));
            };
            let said = format!(in heap; "{mistake}")?;
            assert!(rt; said.as_str() == told, "{}", text);
        }
        Ok(())
    }

    // A text, and the word that is said of it.
    const WORDS: [(&str, &str); 9] = [
        (
            "# one\ngague 1",
            "a.river, line 2: no line begins with this word: `gague`",
        ),
        (
            "gauge 0\n-10 1 1",
            "a.river, line 2: this is no number: a number is digits alone, below 2^64: `-10`",
        ),
        (
            "gauge 0\n10 +1 1 # 3",
            "a.river, line 2: this is no number: a number is digits alone, below 2^64: `+1`",
        ),
        (
            "happens\r\nworks 1 x\r\n",
            "a.river, line 2: this is no number: a number is digits alone, below 2^64: `x`",
        ),
        (
            "happens\npoke 1 2 # 3",
            "a.river, line 2: there is a word too many: `2`",
        ),
        ("gauge", "a.river, line 1: a number is missing"),
        ("gauge 9", "a.river, line 1: there is no such gauge"),
        (
            "\u{feff}gauge 1",
            "a.river, line 1: a byte order mark stands before this line: save the file without one",
        ),
        (
            "Überschwemmungsüberwachung",
            "a.river, line 1: no line begins with this word: `Überschwemmungsüberwachu`",
        ),
    ];

    #[test]
    fn the_word_is_told(rt: HostRuntime) -> Result<(), Fail> {
        let heap = rt.alloc();
        for (text, told) in WORDS {
            let Err(mistake) = parse(heap, text) else {
                return Err(Fail::new(text));
            };
            let said = InFile {
                file: "a.river",
                text,
                mistake,
            };
            assert_eq!(rt; format!(in heap; "{said}")?.as_str(), told);
        }
        Ok(())
    }

    #[test]
    fn a_river_is_read(rt: HostRuntime) -> Result<(), Fail> {
        let heap = rt.alloc();
        let text =
            "# spring\r\ngauge 7 # the last\n 100 1023 4294967295\n\t100 0 7\r\nhappens\nworks 0 4294967296\npoke 7\nbrings 2 5\nfalls 3\ncalm 9 10\ngauge 0\ngauge 1\n0 0 0";
        let river = parse(heap, text)?;
        assert!(rt; river.gauges.len() == 8);
        assert!(rt; river.gauges[7].len() == 2);
        let last = river.gauges[7][1];
        assert_eq!(rt; last.time, 100);
        assert_eq!(rt; last.place, 0);
        assert_eq!(rt; last.value, 7);
        assert_eq!(rt; river.gauges[0].len(), 0);
        assert_eq!(rt; river.gauges[1].len(), 1);
        let wanted = [
            Item::Works(0, 4294967296),
            Item::Poke(7),
            Item::Brings(2, 5),
            Item::Falls(3),
            Item::Calm(9, 10),
        ];
        assert!(rt; river.items.as_slice() == wanted.as_slice());
        Ok(())
    }

    #[test]
    fn an_empty_text_is_a_river(rt: HostRuntime) -> Result<(), Fail> {
        let river = parse(rt.alloc(), "")?;
        assert_eq!(rt; river.gauges.len(), 8);
        assert_eq!(rt; river.items.len(), 0);
        Ok(())
    }
}
