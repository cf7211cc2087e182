// Stations on real files: let go of after every number of turns, and given files that are no good.
#![tactic(auto)]

#[cfg(test)]
mod crew;

#[cfg(test)]
mod tests {
    use crate::crew::{Crew, make_folder, options};
    use keeper::{Options, Request, Station};
    use std::fs;
    use std::os::unix::fs::symlink;
    use std::test::Fail;

    // Two gauges that read; rows are told by machines 1, 2 and 7.
    const RIVER: &str = "gauge 0
10 1 4
50 2 0
130 1 7
170 1 5
390 1023 4294967295
gauge 3
20 1 3
140 2 1
";

    // Eight stations in a folder of their own.
    fn crew(rt: &HostRuntime, name: &str) -> Result<Crew, Fail> {
        make_folder(rt, name, RIVER)?;
        Ok(Crew::open(rt, name)?)
    }

    // The files of the first of eight stations.
    fn alone(rt: &HostRuntime, name: &str) -> Result<Options, Fail> {
        make_folder(rt, name, RIVER)?;
        Ok(options(rt, name, 0)?)
    }

    // Opens a station and lets it do so many turns; then it is gone, as if it were killed.
    fn turns(rt: &HostRuntime, options: &Options, turns: u64) -> Result<bool, Fail> {
        let mut station = Station::open(rt, options)?;
        let mut out = Vec::new(rt.alloc());
        Ok(station.work(rt, &mut out, turns)?)
    }

    // A file as the station writes it, below its checksum.
    fn put(rt: &HostRuntime, path: &str, bytes: &[u8]) -> Result<(), Fail> {
        let file = seal::seal(rt.alloc(), bytes)?;
        Ok(fs::write(rt, path, file.as_slice())?)
    }

    // Whether a file of the station holds just this.
    fn holds(rt: &HostRuntime, path: &str, bytes: &[u8]) -> Result<bool, Fail> {
        let file = fs::read(rt, path)?;
        Ok(seal::unseal(file.as_slice())? == bytes)
    }

    // How many rows of the wall are told again; none is wrong, and none of the river's sums is missing.
    fn repeated(rt: &HostRuntime, name: &str) -> Result<usize, Fail> {
        let heap = rt.alloc();
        let text = fs::read_to_string(rt, format!(in heap; "{name}/wall")?.as_str())?;
        let rows = wall_reader::read(heap, text.as_str())?;
        let river = river::parse(heap, RIVER)?;
        let comparison = rows::compare(heap, river.gauges.as_slice(), rows.as_slice())?;
        if comparison.wrong != 0 {
            return Err(Fail::new("a row of the wall is wrong"));
        }
        if !comparison.untold.is_empty() {
            return Err(Fail::new("a row is missing on the wall"));
        }
        let lines = text.bytes().filter(|byte| *byte == b'\n').count();
        Ok(lines.saturating_sub(rows.len()))
    }

    // What a station that is not opened says.
    fn refusal(rt: &HostRuntime, options: &Options) -> Result<String, Fail> {
        match Station::open(rt, options) {
            Ok(_) => Err(Fail::new("a station is opened that must not be")),
            Err(error) => Ok(format!(in rt.alloc(); "{error}")?),
        }
    }

    #[test]
    fn calm(rt: HostRuntime) -> Result<(), Fail> {
        let mut crew = crew(&rt, "calm")?;
        assert!(rt; !crew.work(&rt, 0, 3)?);
        crew.calm(&rt)?;
        assert_eq!(rt; repeated(&rt, "calm")?, 0);
        // all is told, so nothing more is
        for i in 0..8 {
            crew.let_go(&rt, i)?;
        }
        crew.calm(&rt)?;
        assert_eq!(rt; repeated(&rt, "calm")?, 0);
        Ok(())
    }

    // More turns than a station takes till all is told.
    const TURNS: u64 = 1000;

    // Eight stations from the start, and this one is let go of after each number of turns that ends in the digit, up to one that it does not come to. How many rows are told again.
    fn let_go_of(rt: &HostRuntime, name: &str, i: usize, digit: u64) -> Result<usize, Fail> {
        let mut again: usize = 0;
        for turns in (0..TURNS).filter(|turns| *turns % 10 == digit) {
            let mut crew = crew(rt, name)?;
            let left = crew.strike(rt, i, turns)?;
            crew.calm(rt)?;
            let rows = repeated(rt, name)?;
            if rows > 1 {
                return Err(Fail::new("one stroke has more than one row told again"));
            }
            if left > 0 {
                return Ok(again);
            }
            again = again.saturating_add(rows);
        }
        Err(Fail::new("the station does not come to rest"))
    }

    // Stations 0 and 3 read, 1 and 2 tell; the other four do no more than these.
    fn let_go_each(rt: &HostRuntime, digit: u64) -> Result<usize, Fail> {
        let name = format!(in rt.alloc(); "let-go-{digit}")?;
        let mut again: usize = 0;
        for i in 0..4 {
            again = again.saturating_add(let_go_of(rt, name.as_str(), i, digit)?);
        }
        Ok(again)
    }

    // Ten tests, since each has its time. Stations 1 and 2 have told a row, and not yet kept the cursor behind it, after 33 and after 44 turns.
    #[test]
    fn let_go_after_every_number_of_turns_ending_in_0(rt: HostRuntime) -> Result<(), Fail> {
        assert_eq!(rt; let_go_each(&rt, 0)?, 0);
        Ok(())
    }

    #[test]
    fn let_go_after_every_number_of_turns_ending_in_1(rt: HostRuntime) -> Result<(), Fail> {
        assert_eq!(rt; let_go_each(&rt, 1)?, 0);
        Ok(())
    }

    #[test]
    fn let_go_after_every_number_of_turns_ending_in_2(rt: HostRuntime) -> Result<(), Fail> {
        assert_eq!(rt; let_go_each(&rt, 2)?, 0);
        Ok(())
    }

    #[test]
    fn let_go_after_every_number_of_turns_ending_in_3(rt: HostRuntime) -> Result<(), Fail> {
        assert_eq!(rt; let_go_each(&rt, 3)?, 2);
        Ok(())
    }

    #[test]
    fn let_go_after_every_number_of_turns_ending_in_4(rt: HostRuntime) -> Result<(), Fail> {
        assert_eq!(rt; let_go_each(&rt, 4)?, 2);
        Ok(())
    }

    #[test]
    fn let_go_after_every_number_of_turns_ending_in_5(rt: HostRuntime) -> Result<(), Fail> {
        assert_eq!(rt; let_go_each(&rt, 5)?, 0);
        Ok(())
    }

    #[test]
    fn let_go_after_every_number_of_turns_ending_in_6(rt: HostRuntime) -> Result<(), Fail> {
        assert_eq!(rt; let_go_each(&rt, 6)?, 0);
        Ok(())
    }

    #[test]
    fn let_go_after_every_number_of_turns_ending_in_7(rt: HostRuntime) -> Result<(), Fail> {
        assert_eq!(rt; let_go_each(&rt, 7)?, 0);
        Ok(())
    }

    #[test]
    fn let_go_after_every_number_of_turns_ending_in_8(rt: HostRuntime) -> Result<(), Fail> {
        assert_eq!(rt; let_go_each(&rt, 8)?, 0);
        Ok(())
    }

    #[test]
    fn let_go_after_every_number_of_turns_ending_in_9(rt: HostRuntime) -> Result<(), Fail> {
        assert_eq!(rt; let_go_each(&rt, 9)?, 0);
        Ok(())
    }

    #[test]
    fn let_go_again_and_again(rt: HostRuntime) -> Result<(), Fail> {
        let mut crew = crew(&rt, "again")?;
        for n in 0..96 {
            crew.strike(&rt, n % 8, (n % 13 * 5) as u64)?;
        }
        crew.calm(&rt)?;
        let _repeated = repeated(&rt, "again")?;
        Ok(())
    }

    // A drawer that cannot be written, since what is written beside it is a folder: what its station says of it.
    fn stuck(rt: &HostRuntime, name: &str, i: usize, drawer: u64) -> Result<String, Fail> {
        let heap = rt.alloc();
        let mut crew = crew(rt, name)?;
        let beside = format!(in heap; "{name}/{i}/drawer-{drawer}.new")?;
        fs::create_dir(rt, beside.as_str())?;
        match crew.calm(rt) {
            Ok(()) => Err(Fail::new("the drawer is written")),
            Err(error) => Ok(format!(in heap; "{error}")?),
        }
    }

    // The cursor is in drawer 2.
    #[test]
    fn a_row_is_on_the_wall_before_its_cursor_is_kept(rt: HostRuntime) -> Result<(), Fail> {
        assert!(rt;
            stuck(&rt, "row-first", 1, 2)?
                .as_str()
                .starts_with("row-first/1/drawer-2 cannot be written")
        );
        let wall = fs::read_to_string(&rt, "row-first/wall")?;
        assert_eq!(rt;
            wall.lines()
                .filter(|row| *row == "hour 0 place 1: 7")
                .count(),
            1
        );
        assert!(rt; wall.lines().all(|row| row != "hour 1 place 1: 12"));
        Ok(())
    }

    // The root is in drawer 0.
    #[test]
    fn nothing_is_released_before_its_root_is_kept(rt: HostRuntime) -> Result<(), Fail> {
        assert!(rt;
            stuck(&rt, "root-first", 0, 0)?
                .as_str()
                .starts_with("root-first/0/drawer-0 cannot be written")
        );
        assert!(rt; holds(&rt, "root-first/0/released", b"0\n")?);
        Ok(())
    }

    // 1,026 times 1 to 8.
    const LONG_WALL: &str = "hour 0 place 0: 1026
hour 0 place 1: 2052
hour 0 place 2: 3078
hour 0 place 3: 4104
hour 0 place 4: 5130
hour 0 place 5: 6156
hour 0 place 6: 7182
hour 0 place 7: 8208
";

    // An hour that fills the roll twice: 1,026 readings at each of 8 places, whose sums are on 8 different pages. A reading at place P is P + 1.
    fn make_long_folder(rt: &HostRuntime, name: &str) -> Result<(), Fail> {
        let mut river = String::new(rt.alloc());
        writeln!(river, "gauge 0")?;
        for _ in 0..1026 {
            for place in 0..8 {
                writeln!(river, "0 {place} {}", place + 1)?;
            }
        }
        Ok(make_folder(rt, name, river.as_str())?)
    }

    // Turns 4,102 to 4,109 keep the pages, 4,110 keeps the root, and 4,112 releases the first 4,096 readings. Behind this root
    // boot reads its pages too: turns 4,110 to 4,117 keep those of the other set, and 4,118 the next root.
    #[test]
    fn let_go_while_checkpoints_are_kept(rt: HostRuntime) -> Result<(), Fail> {
        make_long_folder(&rt, "checkpoints")?;
        let first = options(&rt, "checkpoints", 0)?;
        for n in [4102, 4106, 4109, 4110, 4109, 4114, 4117, 4118] {
            assert!(rt; !turns(&rt, &first, n)?);
        }
        assert!(rt; fs::exists(&rt, "checkpoints/0/drawer-0")?);
        assert!(rt; fs::read_to_string(&rt, "checkpoints/wall")?.is_empty());
        Crew::open(&rt, "checkpoints")?.calm(&rt)?;
        let wall = fs::read_to_string(&rt, "checkpoints/wall")?;
        for row in LONG_WALL.lines() {
            assert_eq!(rt; wall.lines().filter(|told| *told == row).count(), 1);
        }
        assert_eq!(rt; wall.lines().count(), 8);
        Ok(())
    }

    // After a checkpoint.
    #[test]
    fn a_page_that_was_cut(rt: HostRuntime) -> Result<(), Fail> {
        make_long_folder(&rt, "cut")?;
        let first = options(&rt, "cut", 0)?;
        assert!(rt; !turns(&rt, &first, 4112)?);
        assert!(rt; holds(&rt, "cut/0/released", b"4096\n")?);
        put(&rt, "cut/0/drawer-10", b"cut")?;
        let mut crew = Crew::open(&rt, "cut")?;
        let Err(error) = crew.work(&rt, 0, 10_000) else {
            return Err(Fail::new("it works on a page that was cut"));
        };
        let said = format!(in rt.alloc(); "{error}")?;
        assert!(rt; said.as_str() == "the machine cannot boot: its drawers do not belong together");
        assert!(rt; fs::read_to_string(&rt, "cut/wall")?.is_empty());
        Ok(())
    }

    // One alone tells nothing, and eight do not where nothing is read.
    #[test]
    fn a_quiet_gauge(rt: HostRuntime) -> Result<(), Fail> {
        make_folder(&rt, "quiet", RIVER)?;
        let third = options(&rt, "quiet", 2)?;
        assert!(rt; turns(&rt, &third, 1000)?);
        assert!(rt; fs::read_to_string(&rt, "quiet/wall")?.is_empty());
        make_folder(&rt, "quiet", "gauge 3\n")?;
        Crew::open(&rt, "quiet")?.calm(&rt)?;
        assert!(rt; fs::read_to_string(&rt, "quiet/wall")?.is_empty());
        Ok(())
    }

    #[test]
    fn an_unfinished_row_is_cut_off(rt: HostRuntime) -> Result<(), Fail> {
        make_folder(&rt, "torn", RIVER)?;
        fs::write(&rt, "torn/wall", "hour 0 place 1: 7\nhour 0 pla")?;
        Crew::open(&rt, "torn")?.calm(&rt)?;
        assert_eq!(rt; repeated(&rt, "torn")?, 1);
        Ok(())
    }

    #[test]
    fn files_that_are_no_good(rt: HostRuntime) -> Result<(), Fail> {
        let heap = rt.alloc();
        let mut options = alone(&rt, "bad")?;
        put(&rt, "bad/0/released", b"6\n")?;
        assert!(rt;
            refusal(&rt, &options)?.as_str()
                == "6 readings are released, and the gauge's file has only 5"
        );
        for text in ["two\n", "2 3\n", "2\n3\n", ""] {
            put(&rt, "bad/0/released", text.as_bytes())?;
            assert!(rt;
                refusal(&rt, &options)?.as_str() == "bad/0/released does not hold one number"
            );
        }
        let long = vec![in heap; 0u8; 4097]?;
        put(&rt, "bad/0/released", long.as_slice())?;
        assert!(rt; refusal(&rt, &options)?.as_str() == "bad/0/released does not hold one number");
        fs::remove_file(&rt, "bad/0/released")?;
        put(&rt, "bad/0/drawer-255", long.as_slice())?;
        assert!(rt;
            refusal(&rt, &options)?.as_str()
                == "bad/0/drawer-255 is no drawer: it has more than 4096 bytes"
        );
        fs::remove_file(&rt, "bad/0/drawer-255")?;
        fs::create_dir(&rt, "bad/0/drawer-0")?;
        assert!(rt; refusal(&rt, &options)?.as_str() == "bad/0/drawer-0 is no plain file");
        options.drawers = format!(in heap; "bad/none")?;
        assert!(rt;
            refusal(&rt, &options)?.as_str() == "there is no folder bad/none for the drawers"
        );
        // nothing was written while it was refused
        assert!(rt; !fs::exists(&rt, "bad/wall")?);
        Ok(())
    }

    // What a station says of a file in which one digit is another.
    fn damaged(rt: &HostRuntime, options: &Options, path: &str, at: usize) -> Result<String, Fail> {
        let whole = fs::read(rt, path)?;
        let mut bytes = Vec::from_slice(rt.alloc(), whole.as_slice())?;
        let Some(byte) = bytes.get_mut(at) else {
            return Err(Fail::new("the file is shorter"));
        };
        *byte ^= 1;
        fs::write(rt, path, bytes.as_slice())?;
        let said = refusal(rt, options)?;
        fs::write(rt, path, whole.as_slice())?;
        Ok(said)
    }

    // A root record with one wrong number is of the right length: without its checksum a machine would go by it.
    #[test]
    fn files_that_are_damaged(rt: HostRuntime) -> Result<(), Fail> {
        crew(&rt, "damaged")?.calm(&rt)?;
        let options = options(&rt, "damaged", 0)?;
        let text = fs::read_to_string(&rt, "damaged/wall")?;
        for at in [0, 63, 65, 66, 72, 80] {
            assert!(rt;
                damaged(&rt, &options, "damaged/0/drawer-0", at)?.as_str()
                    == "damaged/0/drawer-0 is damaged: its checksum does not fit"
            );
        }
        for at in [0, 65, 66] {
            assert!(rt;
                damaged(&rt, &options, "damaged/0/released", at)?.as_str()
                    == "damaged/0/released is damaged: its checksum does not fit"
            );
        }
        assert!(rt; fs::read_to_string(&rt, "damaged/wall")?.as_str() == text.as_str());
        assert!(rt; turns(&rt, &options, 1000)?);
        assert_eq!(rt; repeated(&rt, "damaged")?, 0);
        Ok(())
    }

    // As an older station wrote them, and as a disk leaves a file of which nothing was written.
    #[test]
    fn files_without_a_checksum(rt: HostRuntime) -> Result<(), Fail> {
        let options = alone(&rt, "old")?;
        for text in ["0\n", ""] {
            fs::write(&rt, "old/0/released", text)?;
            assert!(rt;
                refusal(&rt, &options)?.as_str()
                    == "old/0/released has no checksum; if it is an older station's, use an empty folder"
            );
        }
        fs::remove_file(&rt, "old/0/released")?;
        fs::write(&rt, "old/0/drawer-7", "a page")?;
        assert!(rt;
            refusal(&rt, &options)?.as_str()
                == "old/0/drawer-7 has no checksum; if it is an older station's, use an empty folder"
        );
        Ok(())
    }

    // What is left beside a file is never read, and is written over.
    #[test]
    fn writes_that_were_cut_short(rt: HostRuntime) -> Result<(), Fail> {
        let mut crew = crew(&rt, "beside")?;
        crew.strike(&rt, 0, 12)?;
        fs::write(&rt, "beside/0/drawer-0.new", "garbage")?;
        fs::write(&rt, "beside/0/released.new", "7\n")?;
        crew.calm(&rt)?;
        assert_eq!(rt; repeated(&rt, "beside")?, 0);
        assert!(rt; holds(&rt, "beside/0/released", b"5\n")?);
        Ok(())
    }

    #[test]
    fn two_stations_on_one_folder(rt: HostRuntime) -> Result<(), Fail> {
        let mut crew = crew(&rt, "two")?;
        let first = options(&rt, "two", 0)?;
        assert!(rt; !crew.work(&rt, 0, 3)?);
        assert!(rt; refusal(&rt, &first)?.as_str() == "another station runs on two/0");
        crew.calm(&rt)?;
        assert_eq!(rt; repeated(&rt, "two")?, 0);
        drop(crew);
        assert!(rt; turns(&rt, &first, 1000)?);
        Ok(())
    }

    #[test]
    fn gauges_and_walls_that_are_no_good(rt: HostRuntime) -> Result<(), Fail> {
        let heap = rt.alloc();
        let mut options = alone(&rt, "worse")?;
        fs::write(&rt, "worse/gauge", "gauge 0\n10 1\n")?;
        assert!(rt; refusal(&rt, &options)?.as_str() == "worse/gauge, line 2: a number is missing");
        options.gauge = format!(in heap; "worse/none")?;
        assert!(rt;
            refusal(&rt, &options)?
                .as_str()
                .starts_with("the gauge's file worse/none cannot be read")
        );
        for path in ["/dev/zero", "/dev/null", "worse/0"] {
            let said = format!(in heap; "{path} is no plain file")?;
            options.gauge = format!(in heap; "{path}")?;
            assert!(rt; refusal(&rt, &options)?.as_str() == said.as_str());
            options.gauge = format!(in heap; "worse/gauge")?;
            fs::write(&rt, "worse/gauge", RIVER)?;
            options.wall = format!(in heap; "{path}")?;
            assert!(rt; refusal(&rt, &options)?.as_str() == said.as_str());
        }
        symlink(&rt, "nowhere", "worse/link")?;
        options.wall = format!(in heap; "worse/link")?;
        assert!(rt; refusal(&rt, &options)?.as_str() == "worse/link is a link that leads nowhere");
        assert!(rt; !fs::exists(&rt, "worse/nowhere")?);
        Ok(())
    }

    // By its name, by a hard link and by a symbolic one.
    #[test]
    fn two_names_of_one_file(rt: HostRuntime) -> Result<(), Fail> {
        let heap = rt.alloc();
        crew(&rt, "names")?.calm(&rt)?;
        let mut options = options(&rt, "names", 0)?;
        fs::hard_link(&rt, "names/gauge", "names/hard")?;
        symlink(&rt, "gauge", "names/soft")?;
        for path in [
            "names/gauge",
            "names/0/../gauge",
            "names/hard",
            "names/soft",
        ] {
            let said = format!(in heap;
                "the wall {path} and the gauge's file names/gauge are one file"
            )?;
            options.wall = format!(in heap; "{path}")?;
            assert!(rt; refusal(&rt, &options)?.as_str() == said.as_str());
        }
        fs::hard_link(&rt, "names/0/drawer-0", "names/drawer")?;
        for path in [
            "names/0/drawer-2",
            "names/0/drawer-9",
            "names/0/drawer-9.new",
            "names/0/released",
            "names/0/lock",
            "names/drawer",
        ] {
            let said = format!(in heap; "{path} is one of the station's own files in names/0")?;
            options.wall = format!(in heap; "{path}")?;
            assert!(rt; refusal(&rt, &options)?.as_str() == said.as_str());
        }
        assert!(rt; fs::read_to_string(&rt, "names/gauge")?.as_str() == RIVER);
        Ok(())
    }

    // A wall that is refused stays as it is.
    fn no_wall(rt: &HostRuntime, options: &Options, text: &str) -> Result<String, Fail> {
        fs::write(rt, options.wall.as_str(), text)?;
        let said = refusal(rt, options)?;
        if fs::read_to_string(rt, options.wall.as_str())?.as_str() != text {
            return Err(Fail::new("a wall that is refused is changed"));
        }
        Ok(said)
    }

    #[test]
    fn walls_that_are_none(rt: HostRuntime) -> Result<(), Fail> {
        let options = alone(&rt, "garbage")?;
        for (text, said) in [
            (
                RIVER,
                "garbage/wall is no wall: line 1: a row is `hour H place P: S`, and here are too few words",
            ),
            (
                "hour 0 place 1: 4\n\n",
                "garbage/wall is no wall: line 2: this line is blank",
            ),
            (
                "hour 0 place 1: 4\nhour 0 plaice",
                "garbage/wall is no wall: its last line has no end, and no row begins so",
            ),
            (
                "garbage",
                "garbage/wall is no wall: its last line has no end, and no row begins so",
            ),
        ] {
            assert!(rt; no_wall(&rt, &options, text)?.as_str() == said);
        }
        Ok(())
    }

    // Whatever a kill leaves of a row is cut off.
    #[test]
    fn rows_cut_at_every_byte(rt: HostRuntime) -> Result<(), Fail> {
        let row = "hour 18446744073709551615 place 1023: 18446744073709551615";
        for at in 0..row.len() {
            let Some(front) = row.get(..at) else {
                return Err(Fail::new("the row is shorter"));
            };
            let options = alone(&rt, "cut-row")?;
            fs::write(&rt, options.wall.as_str(), front)?;
            assert!(rt; turns(&rt, &options, 1000)?);
            assert!(rt; fs::read_to_string(&rt, options.wall.as_str())?.is_empty());
        }
        Ok(())
    }

    // Of a long wall the last 65,536 bytes are read: what stands before them is not.
    #[test]
    fn a_long_wall(rt: HostRuntime) -> Result<(), Fail> {
        let options = alone(&rt, "tail")?;
        let mut wall = String::new(rt.alloc());
        for hour in 4..6000 {
            writeln!(wall, "hour {hour} place 2: 3")?;
        }
        let long = wall.len();
        write!(wall, "hour 6000 pl")?;
        fs::write(&rt, options.wall.as_str(), wall.as_str())?;
        assert!(rt; !turns(&rt, &options, 0)?);
        assert_eq!(rt; fs::read(&rt, options.wall.as_str())?.len(), long);
        writeln!(wall, "ace")?;
        assert!(rt;
            no_wall(&rt, &options, wall.as_str())?
                .as_str()
                .starts_with("tail/wall is no wall: line ")
        );
        Ok(())
    }

    // What a station says of the first line of its wires; nothing where it hears it.
    fn heard(rt: &HostRuntime, options: &Options, line: &str) -> Result<String, Fail> {
        let mut station = Station::open(rt, options)?;
        let mut out = Vec::new(rt.alloc());
        match station.hear(rt, &mut out, line.as_bytes()) {
            Ok(()) => Ok(String::new(rt.alloc())),
            Err(error) => Ok(format!(in rt.alloc(); "{error}")?),
        }
    }

    // Whatever it hears, all is told then.
    #[test]
    fn lines_that_are_heard(rt: HostRuntime) -> Result<(), Fail> {
        for line in [
            "poke",
            "",
            "  # nothing",
            "from 7 00ff",
            "from 0",
            "poke # again",
        ] {
            let mut crew = crew(&rt, "heard")?;
            crew.hear(&rt, 1, line)?;
            crew.calm(&rt)?;
            assert_eq!(rt; repeated(&rt, "heard")?, 0);
        }
        Ok(())
    }

    #[test]
    fn lines_that_are_no_good(rt: HostRuntime) -> Result<(), Fail> {
        let options = alone(&rt, "lines")?;
        let bad = [
            ("from 8 00", "wires, line 1: there is no such machine"),
            ("from x 00", "wires, line 1: this is not a machine's number"),
            ("from", "wires, line 1: the machine's number is missing"),
            (
                "from 1 0",
                "wires, line 1: a hexadecimal digit stands alone",
            ),
            (
                "from 1 0g",
                "wires, line 1: this is not a hexadecimal digit",
            ),
            ("from 1 00 00", "wires, line 1: there is a word too many"),
            ("poke 1", "wires, line 1: there is a word too many"),
            (
                "to 1 00",
                "wires, line 1: a line is `poke` or begins with `from`",
            ),
        ];
        for (line, said) in bad {
            assert!(rt; heard(&rt, &options, line)?.as_str() == said);
        }
        Ok(())
    }

    #[test]
    fn a_letter_that_is_too_long(rt: HostRuntime) -> Result<(), Fail> {
        let heap = rt.alloc();
        let options = alone(&rt, "long")?;
        let most = vec![in heap; 0u8; 4096]?;
        let fits = text::hex(heap, most.as_slice())?;
        let line = format!(in heap; "from 1 {fits}")?;
        assert!(rt; heard(&rt, &options, line.as_str())?.is_empty());
        let line = format!(in heap; "from 1 {fits}00")?;
        assert!(rt;
            heard(&rt, &options, line.as_str())?.as_str()
                == "wires, line 1: this letter has more than 4096 bytes"
        );
        Ok(())
    }

    #[test]
    fn the_number_of_a_line(rt: HostRuntime) -> Result<(), Fail> {
        let options = alone(&rt, "number")?;
        let mut station = Station::open(&rt, &options)?;
        let mut out = Vec::new(rt.alloc());
        station.hear(&rt, &mut out, b"poke")?;
        station.hear(&rt, &mut out, b"")?;
        let Err(error) = station.hear(&rt, &mut out, b"peek") else {
            return Err(Fail::new("this says nothing"));
        };
        let said = format!(in rt.alloc(); "{error}")?;
        assert!(rt; said.as_str() == "wires, line 3: a line is `poke` or begins with `from`");
        let Err(error) = station.hear(&rt, &mut out, b"poke # \xff") else {
            return Err(Fail::new("this is no text"));
        };
        let said = format!(in rt.alloc(); "{error}")?;
        assert!(rt; said.as_str() == "wires, line 4: it is no UTF-8");
        Ok(())
    }

    fn usage(rt: &HostRuntime, words: &str) -> Result<String, Fail> {
        let heap = rt.alloc();
        let mut list = Vec::new(heap);
        for word in words.split_whitespace() {
            list.push(format!(in heap; "{word}")?)?;
        }
        match Request::read(list) {
            Ok(Request::Help) => Ok(format!(in heap; "help")?),
            Ok(Request::Run(options)) => {
                let Options {
                    machine,
                    drawers,
                    gauge,
                    wall,
                } = options;
                Ok(format!(in heap; "{machine} {drawers} {gauge} {wall}")?)
            }
            Err(error) => Ok(format!(in heap; "{error}")?),
        }
    }

    #[test]
    fn words(rt: HostRuntime) -> Result<(), Fail> {
        assert!(rt; usage(&rt, "7 --drawers d --gauge g --wall w")?.as_str() == "7 d g w");
        assert!(rt; usage(&rt, "--help")?.as_str() == "help");
        assert!(rt; usage(&rt, "0 -h --walls")?.as_str() == "help");
        assert!(rt;
            usage(&rt, "8 --drawers d --gauge g --wall w")?.as_str()
                == "a machine's number is 0 to 7"
        );
        assert!(rt;
            usage(&rt, "x --drawers d --gauge g --wall w")?.as_str()
                == "a machine's number is 0 to 7"
        );
        assert!(rt; usage(&rt, "0 1")?.as_str() == "the machine's number was given before");
        assert!(rt; usage(&rt, "0 --drawers d --gauge g")?.as_str() == "--wall is missing");
        assert!(rt; usage(&rt, "0 --drawers")?.as_str() == "--drawers wants a value");
        assert!(rt; usage(&rt, "0 --wall w --wall w")?.as_str() == "--wall was given before");
        assert!(rt; usage(&rt, "0 --walls w")?.as_str() == "there is no such option");
        assert!(rt;
            usage(&rt, "--drawers d --gauge g --wall w")?.as_str()
                == "the machine's number is missing"
        );
        Ok(())
    }
}
