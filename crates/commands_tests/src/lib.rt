// What the player prints, and what it says of what it refuses, on small rivers.
#![tactic(auto)]

#[cfg(test)]
mod tests {
    use std::fs;
    use std::test::Fail;

    // It ends when two rows are told.
    const WITHOUT_CALM: &str = "gauge 0
10 1 4
50 2 0
130 1 7
210 3 5
happens
calm 2 100
";

    // Two rows are told in the first calm, and two in the last.
    const IN_PARTS: &str = "gauge 0
10 1 4
50 2 0
130 1 7
210 3 5
happens
calm 2 100
works 0 9
works 3 5
works 0 14
falls 2
calm 8 100
";

    const TWO_GAUGES: &str = "gauge 0
10 1 4
gauge 1
10 1 3
120 5 2
happens
calm 8 100
";

    // A machine that does four acts.
    const ONE_ROW: &str = "gauge 0
10 1 4
happens
works 0 4
";

    // Strokes, and nothing for them to meet.
    const NO_WORK: &str = "gauge 0
10 1 4
happens
falls 0
poke 0
";

    // Machines that could do more acts than are done between two looks at the clock, and rest before.
    const LONG_CALM: &str = "gauge 0
10 1 4
50 2 0
130 1 7
210 3 5
happens
works 0 9000000
falls 0
calm 8 5000000
";

    // Runs a command on a file with this text, in a folder of its own, and the same text as its input: what is printed, and behind it what is wrong, where something is.
    fn run(rt: &HostRuntime, folder: &str, text: &str, line: &str) -> Result<String, Fail> {
        let heap = rt.alloc();
        if fs::exists(rt, folder)? {
            fs::remove_dir_all(rt, folder)?;
        }
        fs::create_dir(rt, folder)?;
        let file = format!(in heap; "{folder}/river")?;
        fs::write(rt, file.as_str(), text)?;
        let mut words = Vec::new(heap);
        for word in line.split(' ') {
            let word = if word == "FILE" { file.as_str() } else { word };
            words.push(String::from_str(heap, word)?)?;
        }
        said(rt, text, words.as_slice())
    }

    fn said(rt: &HostRuntime, input: &str, words: &[String]) -> Result<String, Fail> {
        let heap = rt.alloc();
        let mut out: Vec<u8> = Vec::new(heap);
        let done = commands::run(rt, &mut input.as_bytes(), &mut out, words);
        let Ok(printed) = String::from_utf8(out) else {
            return Err(Fail::new("what is printed is no text"));
        };
        match done {
            Ok(()) => Ok(printed),
            Err(error) => Ok(format!(in heap; "{printed}error: {error}")?),
        }
    }

    #[test]
    fn rows_as_they_are_told(rt: HostRuntime) -> Result<(), Fail> {
        let wanted = "\
hour 0 place 1: 4
hour 0 place 2: 0
hour 1 place 1: 7
hour 2 place 3: 5
4 readings, 4 rows told, 0 wrong, 0 untold: what is told is right, and all is told
";
        assert_eq!(rt; run(&rt, "told", IN_PARTS, "play FILE")?.as_str(), wanted);
        Ok(())
    }

    // What is asked for is done in portions, and the same rows are printed.
    #[test]
    fn portions(rt: HostRuntime) -> Result<(), Fail> {
        let wanted = "\
hour 0 place 1: 4
hour 0 place 2: 0
hour 1 place 1: 7
hour 2 place 3: 5
4 readings, 4 rows told, 0 wrong, 0 untold: what is told is right, and all is told
";
        assert_eq!(rt;
            run(&rt, "portions", LONG_CALM, "play FILE")?.as_str(),
            wanted
        );
        Ok(())
    }

    #[test]
    fn rows_that_are_not_told(rt: HostRuntime) -> Result<(), Fail> {
        let wanted = "\
hour 0 place 1: 4
hour 0 place 2: 0
untold: hour 1 place 1: 7
untold: hour 2 place 3: 5
4 readings, 2 rows told, 0 wrong, 2 untold: what is told is right, and not all is told
";
        assert_eq!(rt;
            run(&rt, "untold", WITHOUT_CALM, "play FILE")?.as_str(),
            wanted
        );
        Ok(())
    }

    #[test]
    fn sums(rt: HostRuntime) -> Result<(), Fail> {
        let wanted = "hour 0 place 1: 7\nhour 1 place 5: 2\n";
        assert_eq!(rt; run(&rt, "sums", TWO_GAUGES, "sums FILE")?.as_str(), wanted);
        Ok(())
    }

    // Readings of all gauges are added up.
    #[test]
    fn two_gauges(rt: HostRuntime) -> Result<(), Fail> {
        let wanted = "\
hour 0 place 1: 7
hour 1 place 5: 2
3 readings, 2 rows told, 0 wrong, 0 untold: what is told is right, and all is told
";
        assert_eq!(rt; run(&rt, "two", TWO_GAUGES, "play FILE")?.as_str(), wanted);
        Ok(())
    }

    // `-` is the input.
    #[test]
    fn the_input(rt: HostRuntime) -> Result<(), Fail> {
        let sums = "hour 0 place 1: 7\nhour 1 place 5: 2\n";
        assert_eq!(rt; run(&rt, "input", TWO_GAUGES, "sums -")?.as_str(), sums);
        let walls =
            "4 walls, 4 rows told, 0 told again, 0 too often, 0 wrong, 0 untold, 0 faults\n";
        assert_eq!(rt; run(&rt, "input", ONE_ROW, "strike -")?.as_str(), walls);
        let wanted = "error: input/none cannot be read: No such file or directory (os error 2)";
        assert_eq!(rt;
            run(&rt, "input", ONE_ROW, "play input/none")?.as_str(),
            wanted
        );
        Ok(())
    }

    // Rivers of other seeds have other readings and rows.
    #[test]
    fn random(rt: HostRuntime) -> Result<(), Fail> {
        let wanted =
            "5 rivers, 48833 readings, 3613 rows told, 0 too often, 0 wrong, 0 untold, 0 faults\n";
        assert_eq!(rt; run(&rt, "random", "", "random 1 5")?.as_str(), wanted);
        Ok(())
    }

    #[test]
    fn struck_once(rt: HostRuntime) -> Result<(), Fail> {
        let wanted =
            "4 walls, 4 rows told, 0 told again, 0 too often, 0 wrong, 0 untold, 0 faults\n";
        for line in ["strike FILE", "strike FILE 1"] {
            assert_eq!(rt; run(&rt, "once", ONE_ROW, line)?.as_str(), wanted);
        }
        Ok(())
    }

    #[test]
    fn struck_twice(rt: HostRuntime) -> Result<(), Fail> {
        let wanted =
            "104 walls, 104 rows told, 0 told again, 0 too often, 0 wrong, 0 untold, 0 faults\n";
        assert_eq!(rt;
            run(&rt, "twice", ONE_ROW, "strike FILE 2")?.as_str(),
            wanted
        );
        Ok(())
    }

    #[test]
    fn nothing_to_strike(rt: HostRuntime) -> Result<(), Fail> {
        let wanted = "error: there is nothing to strike: no machine works in this river";
        for line in ["strike FILE", "strike FILE 2"] {
            assert_eq!(rt; run(&rt, "no-work", NO_WORK, line)?.as_str(), wanted);
        }
        Ok(())
    }

    // The times, which differ, stand between the two.
    #[test]
    fn figures(rt: HostRuntime) -> Result<(), Fail> {
        let first = "\
hour 0 place 1: 4
hour 0 place 2: 0
untold: hour 1 place 1: 7
untold: hour 2 place 3: 5
301 acts, 10 asked, 8 sought, 8 released, 119 sent, 10 kept, 16 recalled, 2 told, 128 rested, 0 faults
4 readings, 2 rows, 10 keeps, 8 releases
75.25 acts for each reading
150.50 acts for each row
";
        let last = " us for the sums made at once
4 readings, 2 rows told, 0 wrong, 2 untold: what is told is right, and not all is told
";
        let printed = run(&rt, "figures", WITHOUT_CALM, "play FILE --stats")?;
        assert!(rt; printed.as_str().starts_with(first), "{printed}");
        assert!(rt; printed.as_str().ends_with(last), "{printed}");
        Ok(())
    }

    #[test]
    fn a_file_that_is_not_there(rt: HostRuntime) -> Result<(), Fail> {
        let wanted = "error: away/none cannot be read: No such file or directory (os error 2)";
        for line in [
            "play away/none",
            "away/none",
            "strike away/none",
            "sums away/none",
        ] {
            assert_eq!(rt; run(&rt, "away", "", line)?.as_str(), wanted);
        }
        Ok(())
    }

    #[test]
    fn a_file_that_is_no_river(rt: HostRuntime) -> Result<(), Fail> {
        let wanted = "error: bad/river, line 2: there is no such place";
        for line in ["FILE", "sums FILE", "strike FILE"] {
            assert_eq!(rt;
                run(&rt, "bad", "gauge 0\n10 1024 4\n", line)?.as_str(),
                wanted
            );
        }
        let wanted = "error: standard input, line 2: no line begins with this word: `wroks`";
        for line in ["play -", "sums -", "strike -"] {
            assert_eq!(rt;
                run(&rt, "bad", "happens\nwroks 0 1\n", line)?.as_str(),
                wanted
            );
        }
        Ok(())
    }

    // However long a name is, the line and the reason are told behind it.
    #[test]
    fn a_long_name(rt: HostRuntime) -> Result<(), Fail> {
        let heap = rt.alloc();
        let name = "y".repeat(heap, 200)?;
        let name = name.as_str();
        let wanted = format!(in heap; "error: {name}/river, line 2: there is no such place")?;
        assert_eq!(rt;
            run(&rt, name, "gauge 0\n10 1024 4\n", "sums FILE")?.as_str(),
            wanted.as_str()
        );
        let line = format!(in heap; "sums {name}/none")?;
        let wanted = format!(in heap;
            "error: {name}/none cannot be read: No such file or directory (os error 2)"
        )?;
        assert_eq!(rt;
            run(&rt, name, "", line.as_str())?.as_str(),
            wanted.as_str()
        );
        Ok(())
    }

    #[test]
    fn help(rt: HostRuntime) -> Result<(), Fail> {
        let printed = run(&rt, "help", "", "--help")?;
        assert!(rt;
            printed
                .as_str()
                .starts_with("usage: player COMMAND\n\n  play FILE [--stats] ")
        );
        assert!(rt;
            printed
                .as_str()
                .ends_with("1 where a river is not played right, and 0 otherwise.\n")
        );
        Ok(())
    }

    // It is no part of the command behind which it stands, and stands nowhere else.
    #[test]
    fn progress(rt: HostRuntime) -> Result<(), Fail> {
        let printed = run(&rt, "progress", ONE_ROW, "sums FILE --progress")?;
        assert_eq!(rt; printed.as_str(), "hour 0 place 1: 4\n");
        let wanted =
            "error: `--stats`: there is a word too many; `player --help` says how it is used";
        let printed = run(&rt, "progress", ONE_ROW, "play FILE --progress --stats")?;
        assert_eq!(rt; printed.as_str(), wanted);
        Ok(())
    }

    #[test]
    fn words_that_are_no_command(rt: HostRuntime) -> Result<(), Fail> {
        let wanted = "error: the seed is missing; `player --help` says how it is used";
        assert_eq!(rt; run(&rt, "words", "", "random")?.as_str(), wanted);
        let wanted =
            "error: `--fast`: there is no such option; `player --help` says how it is used";
        assert_eq!(rt; run(&rt, "words", "", "play FILE --fast")?.as_str(), wanted);
        Ok(())
    }
}
