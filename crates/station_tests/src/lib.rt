// The program `station` as it is asked by words, on real files.
#![tactic(auto)]

#[cfg(test)]
mod tests {
    use std::fs;
    use std::test::Fail;

    const RIVER: &str = "gauge 0\n10 1 4\n50 2 0\n130 1 7\n170 1 5\n390 1023 4294967295\n";

    // A folder with a gauge's file and a folder for drawers, without what an earlier run left there.
    fn folder(rt: &HostRuntime, name: &str) -> Result<(), Fail> {
        let heap = rt.alloc();
        if fs::exists(rt, name)? {
            fs::remove_dir_all(rt, name)?;
        }
        fs::create_dir(rt, name)?;
        fs::write(rt, format!(in heap; "{name}/gauge")?.as_str(), RIVER)?;
        fs::create_dir(rt, format!(in heap; "{name}/drawers")?.as_str())?;
        Ok(())
    }

    // The status with which the program ends for these words and wires, and what it says; nothing where it ends well.
    fn said(rt: &HostRuntime, words: &str, wires: &str) -> Result<String, Fail> {
        said_of(rt, words, wires.as_bytes())
    }

    // What goes out for these words and wires, where the program ends well.
    fn sent(rt: &HostRuntime, words: &str, wires: &str) -> Result<String, Fail> {
        let heap = rt.alloc();
        let mut out = Vec::new(heap);
        keeper::run(rt, list_of(rt, words)?, wires.as_bytes(), &mut out)?;
        Ok(format!(in heap; "{}", str::from_utf8(out.as_slice())?)?)
    }

    fn list_of(rt: &HostRuntime, words: &str) -> Result<Vec<String>, Fail> {
        let heap = rt.alloc();
        let mut list = Vec::new(heap);
        for word in words.split_whitespace() {
            list.push(format!(in heap; "{word}")?)?;
        }
        Ok(list)
    }

    // The same of wires of any bytes.
    fn said_of(rt: &HostRuntime, words: &str, wires: &[u8]) -> Result<String, Fail> {
        let heap = rt.alloc();
        let mut out = Vec::new(heap);
        match keeper::run(rt, list_of(rt, words)?, wires, &mut out) {
            Ok(()) => Ok(String::new(heap)),
            Err(failure) => {
                let code = failure.code();
                Ok(format!(in heap; "{code}: {failure}")?)
            }
        }
    }

    const OF_A: &str = "0 --drawers a/drawers --gauge a/gauge --wall a/wall";

    // Alone it tells no row: it says to each other machine what it read, and then has nothing to say to one that is poked.
    #[test]
    fn works_without_a_line(rt: HostRuntime) -> Result<(), Fail> {
        folder(&rt, "a")?;
        let lines = sent(&rt, OF_A, "")?;
        for to in 1..8 {
            let start = format!(in rt.alloc(); "to {to} ")?;
            assert!(rt; lines.lines().any(|line| line.starts_with(start.as_str())));
        }
        assert!(rt; lines.lines().all(|line| line.starts_with("to ")));
        assert!(rt; lines.lines().all(|line| !line.starts_with("to 0 ")));
        assert!(rt; fs::read_to_string(&rt, "a/wall")?.is_empty());
        // a letter that is none changes nothing
        let again = sent(&rt, OF_A, "")?;
        assert!(rt; sent(&rt, OF_A, "poke\nfrom 3 0a0b\n")?.as_str() == again.as_str());
        Ok(())
    }

    // The second of the lines is no good.
    #[test]
    fn each_line_is_heard(rt: HostRuntime) -> Result<(), Fail> {
        folder(&rt, "b")?;
        let words = "--wall b/wall --gauge b/gauge 0 --drawers b/drawers";
        assert!(rt;
            said(&rt, words, "poke\npeek\npoke\n")?.as_str()
                == "2: wires, line 2: a line is `poke` or begins with `from`"
        );
        assert!(rt; fs::read_to_string(&rt, "b/wall")?.is_empty());
        Ok(())
    }

    // Also in a comment.
    #[test]
    fn a_line_that_is_no_text(rt: HostRuntime) -> Result<(), Fail> {
        folder(&rt, "e")?;
        let words = "0 --drawers e/drawers --gauge e/gauge --wall e/wall";
        assert!(rt;
            said_of(&rt, words, b"poke\n\npoke # \xff\n")?.as_str()
                == "2: wires, line 3: it is no UTF-8"
        );
        assert!(rt; fs::read_to_string(&rt, "e/wall")?.is_empty());
        Ok(())
    }

    // A value may begin as an option does.
    #[test]
    fn an_option_that_there_is_not(rt: HostRuntime) -> Result<(), Fail> {
        for words in ["0 --walls w --gauge g", "--wall -w 0 --walls"] {
            assert!(rt; said(&rt, words, "")?.as_str() == "2: `--walls`: there is no such option");
        }
        Ok(())
    }

    // Each is refused before it is read, and nothing is changed.
    #[test]
    fn files_that_did_harm(rt: HostRuntime) -> Result<(), Fail> {
        folder(&rt, "f")?;
        let words = "0 --drawers f/drawers --gauge f/gauge --wall /dev/zero";
        assert!(rt; said(&rt, words, "")?.as_str() == "2: /dev/zero is no plain file");
        let words = "0 --drawers f/drawers --gauge f/gauge --wall f/gauge";
        assert!(rt;
            said(&rt, words, "")?.as_str()
                == "2: the wall f/gauge and the gauge's file f/gauge are one file"
        );
        assert!(rt; fs::read_to_string(&rt, "f/gauge")?.as_str() == RIVER);
        fs::write(&rt, "f/notes", "a note\n")?;
        let words = "0 --drawers f/drawers --gauge f/gauge --wall f/notes";
        assert!(rt;
            said(&rt, words, "")?
                .as_str()
                .starts_with("2: f/notes is no wall: line 1: ")
        );
        assert!(rt; fs::read_to_string(&rt, "f/notes")?.as_str() == "a note\n");
        assert!(rt; !fs::exists(&rt, "f/drawers/released")?);
        Ok(())
    }

    // What could not be done is no refusal.
    #[test]
    fn a_drawer_that_cannot_be_written(rt: HostRuntime) -> Result<(), Fail> {
        folder(&rt, "g")?;
        fs::create_dir(&rt, "g/drawers/released.new")?;
        let words = "0 --drawers g/drawers --gauge g/gauge --wall g/wall";
        assert!(rt;
            said(&rt, words, "")?
                .as_str()
                .starts_with("1: g/drawers/released cannot be written: ")
        );
        Ok(())
    }

    // Asked for help, it does nothing else.
    #[test]
    fn help(rt: HostRuntime) -> Result<(), Fail> {
        folder(&rt, "c")?;
        let words = "0 --drawers c/drawers --gauge c/gauge --wall c/wall --help";
        assert!(rt;
            sent(&rt, words, "peek\n")?
                .as_str()
                .starts_with("usage: station MACHINE ")
        );
        assert!(rt; !fs::exists(&rt, "c/wall")?);
        Ok(())
    }

    #[test]
    fn words_that_are_no_good(rt: HostRuntime) -> Result<(), Fail> {
        folder(&rt, "d")?;
        let words = "8 --drawers d/drawers --gauge d/gauge --wall d/wall";
        assert!(rt; said(&rt, words, "")?.as_str() == "2: a machine's number is 0 to 7");
        let words = "0 --drawers d/none --gauge d/gauge --wall d/wall";
        assert!(rt;
            said(&rt, words, "")?.as_str() == "2: there is no folder d/none for the drawers"
        );
        assert!(rt; !fs::exists(&rt, "d/wall")?);
        Ok(())
    }
}
