// The program `wall` as it is asked by words: what it prints, and what it says where it refuses.
#![tactic(auto)]

#[cfg(test)]
mod tests {
    use std::io::{ErrorKind, Write};
    use std::test::Fail;
    use std::{fs, io};

    const WALL: &str = "hour 9 place 1: 12
hour 3 place 2: 7
hour 10 place 1: 24
hour 9 place 1: 12
hour 8 place 1: 0
";

    // Where nothing can be written, for this reason.
    #[derive(Drop)]
    struct Unwritable(ErrorKind);

    impl Write for Unwritable {
        fn write(&mut self, _bytes: &[u8]) -> io::Result<usize> {
            Err(io::Error::from(self.0))
        }

        fn flush(&mut self) -> io::Result<()> {
            Ok(())
        }
    }

    // The words of a text.
    fn list(rt: &HostRuntime, words: &str) -> Result<Vec<String>, Fail> {
        let heap = rt.alloc();
        let mut list = Vec::new(heap);
        for word in words.split_whitespace() {
            list.push(format!(in heap; "{word}")?)?;
        }
        Ok(list)
    }

    // What the program says for these words, of a wall of one row, where nothing can be written.
    fn unwritten(rt: &HostRuntime, words: &str, why: ErrorKind) -> Result<String, Fail> {
        let mut input: &[u8] = b"hour 1 place 1: 5\n";
        match wall_printer::run(rt, list(rt, words)?, &mut input, &mut Unwritable(why)) {
            Ok(()) => Err(Fail::new("nothing can be written, and nothing is said")),
            Err(failure) => {
                let code = failure.code();
                Ok(format!(in rt.alloc(); "{code}: {failure}")?)
            }
        }
    }

    // What the program prints for these words, with the wall as its input.
    fn printed(rt: &HostRuntime, words: &str, wall: &str) -> Result<String, Fail> {
        printed_of(rt, words, wall.as_bytes())
    }

    // The same of a wall of any bytes.
    fn printed_of(rt: &HostRuntime, words: &str, wall: &[u8]) -> Result<String, Fail> {
        let heap = rt.alloc();
        let mut out = Vec::new(heap);
        let mut input = wall;
        match wall_printer::run(rt, list(rt, words)?, &mut input, &mut out) {
            Ok(()) => Ok(String::from_utf8(out)?),
            Err(failure) => Ok(format!(in heap; "refused: {failure}")?),
        }
    }

    #[test]
    fn rows(rt: HostRuntime) -> Result<(), Fail> {
        let all = "hour 3 place 2: 7
hour 8 place 1: 0
hour 9 place 1: 12
hour 10 place 1: 24
";
        assert_eq!(rt; printed(&rt, "", WALL)?.as_str(), all);
        let some = "hour 9 place 1: 12\n";
        assert_eq!(rt; printed(&rt, "--hour 9", WALL)?.as_str(), some);
        let some = "hour 8 place 1: 0\nhour 9 place 1: 12\n";
        assert_eq!(rt; printed(&rt, "--hours 4..10", WALL)?.as_str(), some);
        assert_eq!(rt; printed(&rt, "--place 2 --hour 9", WALL)?.as_str(), "");
        Ok(())
    }

    #[test]
    fn comma_separated(rt: HostRuntime) -> Result<(), Fail> {
        assert_eq!(rt;
            printed(&rt, "--place 1 --csv", WALL)?.as_str(),
            "hour,place,sum\n8,1,0\n9,1,12\n10,1,24\n"
        );
        Ok(())
    }

    #[test]
    fn a_chart(rt: HostRuntime) -> Result<(), Fail> {
        let half = "#########################";
        let chart = format!(in rt.alloc(); " 8 | 0\n 9 |{half} 12\n10 |{half}{half} 24\n")?;
        assert_eq!(rt;
            printed(&rt, "--chart --place 1", WALL)?.as_str(),
            chart.as_str()
        );
        assert_eq!(rt;
            printed(&rt, "--chart", WALL)?.as_str(),
            "refused: a chart is of one place, and here are places 2 and 1"
        );
        Ok(())
    }

    // A line without its end is no row.
    #[test]
    fn a_torn_wall(rt: HostRuntime) -> Result<(), Fail> {
        let torn = "hour 1 place 1: 5\nhour 2 place 1: 3";
        assert_eq!(rt; printed(&rt, "", torn)?.as_str(), "hour 1 place 1: 5\n");
        assert_eq!(rt; printed(&rt, "", "")?.as_str(), "");
        Ok(())
    }

    #[test]
    fn a_wall_in_a_file(rt: HostRuntime) -> Result<(), Fail> {
        fs::write(&rt, "some-wall", "hour 7 place 0: 1\n")?;
        assert_eq!(rt;
            printed(&rt, "some-wall", WALL)?.as_str(),
            "hour 7 place 0: 1\n"
        );
        fs::write(&rt, "bad-wall", "hour 7 place 0: 1\nhour 7\n")?;
        assert_eq!(rt;
            printed(&rt, "bad-wall", WALL)?.as_str(),
            "refused: bad-wall, line 2: a row is `hour H place P: S`, and here are too few words"
        );
        assert!(rt;
            printed(&rt, "no-wall", WALL)?
                .as_str()
                .starts_with("refused: no-wall cannot be read: ")
        );
        Ok(())
    }

    // However long a name is, the line and the reason are told behind it.
    #[test]
    fn a_long_name(rt: HostRuntime) -> Result<(), Fail> {
        let heap = rt.alloc();
        let name = "y".repeat(heap, 200)?;
        let name = name.as_str();
        fs::write(&rt, name, "hour 1 place 2: 5\nhour 1 place 2: 6\n")?;
        assert_eq!(rt;
            printed(&rt, name, WALL)?.as_str(),
            format!(in heap;
                "refused: {name}, line 2: hour 1 place 2 is 6 here and 5 above"
            )?.as_str()
        );
        fs::write(&rt, name, "hour 1 place 2: 5\nhour 1\n")?;
        assert_eq!(rt;
            printed(&rt, name, WALL)?.as_str(),
            format!(in heap;
                "refused: {name}, line 2: a row is `hour H place P: S`, and here are too few words"
            )?.as_str()
        );
        fs::remove_file(&rt, name)?;
        assert_eq!(rt;
            printed(&rt, name, WALL)?.as_str(),
            format!(in heap;
                "refused: {name} cannot be read: No such file or directory (os error 2)"
            )?.as_str()
        );
        let word = format!(in heap; "--{name}")?;
        assert_eq!(rt;
            printed(&rt, word.as_str(), WALL)?.as_str(),
            format!(in heap; "refused: {word}: there is no such option")?.as_str()
        );
        Ok(())
    }

    #[test]
    fn nothing_can_be_written(rt: HostRuntime) -> Result<(), Fail> {
        for words in ["", "--csv", "--chart", "--help"] {
            assert_eq!(rt;
                unwritten(&rt, words, ErrorKind::StorageFull)?.as_str(),
                "1: the rows cannot be written: no storage space"
            );
            assert!(rt;
                unwritten(&rt, words, ErrorKind::BrokenPipe)?
                    .as_str()
                    .starts_with("0: ")
            );
        }
        Ok(())
    }

    #[test]
    fn refused(rt: HostRuntime) -> Result<(), Fail> {
        assert!(rt;
            printed(&rt, "--place 1 --help", WALL)?
                .as_str()
                .starts_with("usage: wall")
        );
        assert_eq!(rt;
            printed(&rt, "--hour", WALL)?.as_str(),
            "refused: --hour: its value is missing"
        );
        assert_eq!(rt;
            printed(&rt, "--place 1 --hour x", WALL)?.as_str(),
            "refused: x: this is not a number below 2^64"
        );
        assert!(rt;
            printed_of(&rt, "", b"hour 1 place 1: 5\n\xff\n")?
                .as_str()
                .starts_with("refused: standard input cannot be read: ")
        );
        let twice = "hour 1 place 1: 5\nhour 1 place 1: 6\n";
        assert_eq!(rt;
            printed(&rt, "", twice)?.as_str(),
            "refused: standard input, line 2: hour 1 place 1 is 6 here and 5 above"
        );
        assert_eq!(rt;
            printed(&rt, "--chart", "")?.as_str(),
            "refused: there are no rows to chart"
        );
        Ok(())
    }
}
