// Rivers played, struck and made at random; texts that are read back; and the words of the command line.
#![tactic(auto)]

#[cfg(test)]
mod tests {
    use chance::Random;
    use play::{Outcome, Ratio, Score, StrikeError, Verdict};
    use player_args::{ArgsError, Command, command_of};
    use river::{Item, parse};
    use std::alloc::Global;
    use std::test::Fail;
    use world::Kind;

    const SHORT: &str = "gauge 0\n10 1 4\n50 2 0\n130 1 7\nhappens\nworks 0 30\ncalm 8 100\n";

    #[test]
    fn splitmix64(rt: HostRuntime) {
        let mut random = Random::new(0);
        assert_eq!(rt; random.draw(), 0xe220_a839_7b1d_cdaf);
        assert_eq!(rt; random.draw(), 0x6e78_9e6a_a1b9_65f4);
        assert_eq!(rt; random.below(0), 0);
        assert_eq!(rt; random.below(1), 0);
    }

    #[test]
    fn a_seed_gives_one_text(rt: HostRuntime) -> Result<(), Fail> {
        let heap = rt.alloc();
        let one = chance::random_river(heap, 7)?;
        let again = chance::random_river(heap, 7)?;
        let other = chance::random_river(heap, 8)?;
        assert!(rt; one.as_str() == again.as_str());
        assert!(rt; one.as_str() != other.as_str());
        Ok(())
    }

    // FNV-1a of the texts of 20 seeds, as another program makes them: a river's seed gives the same river on any day.
    #[test]
    fn a_seed_gives_just_this_text(rt: HostRuntime) -> Result<(), Fail> {
        let heap = rt.alloc();
        let mut sum: u64 = 0xcbf2_9ce4_8422_2325;
        for seed in 1..=20 {
            let text = chance::random_river(heap, seed)?;
            for byte in text.as_bytes() {
                sum = (sum ^ u64::from(*byte)).wrapping_mul(0x100_0000_01b3);
            }
        }
        assert_eq!(rt; sum, 0xa464_4092_6699_7614);
        Ok(())
    }

    #[test]
    fn rivers_at_random_are_right(rt: HostRuntime) -> Result<(), Fail> {
        let heap = rt.alloc();
        let mut score = Score::NONE;
        for seed in 1..=5 {
            let text = chance::random_river(heap, seed)?;
            let river = parse(heap, text.as_str())?;
            let outcome = play::trial(heap, river.gauges.as_slice(), river.items.as_slice())?;
            assert_eq!(rt; outcome.verdict, Verdict::Right);
            score = score.plus(outcome.score);
        }
        assert_eq!(rt; score.worlds, 5);
        assert!(rt; score.readings > 20_000);
        assert_eq!(rt; score.wrong, 0);
        assert_eq!(rt; score.too_often, 0);
        Ok(())
    }

    // No machine does this; so the score is made by hand.
    #[test]
    fn rows_told_too_often(rt: HostRuntime) -> Result<(), Fail> {
        let outcome = Outcome {
            verdict: Verdict::Right,
            score: Score {
                too_often: 1,
                ..Score::NONE
            },
        };
        assert!(rt; !outcome.score.is_right());
        let wanted = "what is told is right, and all is told; rows are told too often";
        assert!(rt; format!(in rt.alloc(); "{outcome}")?.as_str() == wanted);
        Ok(())
    }

    // A stroke on any machine is one, and in calm there is none.
    #[test]
    fn strokes_of_all_machines(rt: HostRuntime) {
        let items = [
            Item::Falls(3),
            Item::Works(0, 9),
            Item::Falls(0),
            Item::Falls(3),
            Item::Calm(2, 7),
        ];
        assert_eq!(rt; play::strokes_of(&items), 3);
        assert_eq!(rt; play::strokes_of(&items[..2]), 1);
        assert_eq!(rt; play::strokes_of(&[Item::Falls(8)]), 0);
    }

    // Struck after every act of its first turn: right each time, and a row is told again at most once.
    #[test]
    fn struck_rivers_are_right(rt: HostRuntime) -> Result<(), Fail> {
        let heap = rt.alloc();
        let river = parse(heap, SHORT)?;
        for acts in 0..=30 {
            let items = play::struck(heap, river.items.as_slice(), 0, &[acts, 3])?;
            let outcome = play::trial(heap, river.gauges.as_slice(), items.as_slice())?;
            assert_eq!(rt; outcome.verdict, Verdict::Right);
            assert!(rt; outcome.score.again <= 1);
        }
        Ok(())
    }

    #[test]
    fn where_strokes_are_put(rt: HostRuntime) -> Result<(), Fail> {
        let heap = rt.alloc();
        let items = [Item::Poke(1), Item::Works(0, 9), Item::Falls(2)];
        let struck = play::struck(heap, &items, 1, &[4, 5])?;
        let wanted = [
            Item::Poke(1),
            Item::Works(0, 4),
            Item::Falls(0),
            Item::Works(0, 5),
            Item::Falls(0),
            Item::Works(0, 9),
            Item::Falls(2),
        ];
        assert!(rt; struck.as_slice() == wanted.as_slice());
        for k in [0, 2, 3] {
            let Err(error) = play::struck(heap, &items, k, &[1]) else {
                return Err(Fail::new("no machine works there"));
            };
            assert_eq!(rt; error, StrikeError::NotWorks);
        }
        Ok(())
    }

    #[test]
    fn calm_written_out(rt: HostRuntime) -> Result<(), Fail> {
        let heap = rt.alloc();
        let items = play::plain(heap, &[Item::Falls(3), Item::Calm(2, 7)])?;
        assert_eq!(rt; items.len(), 1 + 2 * (16 + 128));
        assert_eq!(rt; items[0], Item::Falls(3));
        assert_eq!(rt; items[1], Item::Poke(0));
        assert_eq!(rt; items[2], Item::Works(0, 7));
        assert_eq!(rt; items[19], Item::Brings(1, 0));
        Ok(())
    }

    // Machine 0 boots, reads, sends to each other and rests in 15 acts; then it does none till it is poked, and then rests.
    #[test]
    fn acts_of_each_item(rt: HostRuntime) -> Result<(), Fail> {
        let heap = rt.alloc();
        let river = parse(heap, SHORT)?;
        let items = [
            Item::Works(0, 7),
            Item::Falls(3),
            Item::Works(0, 30),
            Item::Works(0, 1),
            Item::Poke(0),
            Item::Works(0, 9),
        ];
        let acts = play::acts_of(heap, river.gauges.as_slice(), &items)?;
        assert!(rt; acts.as_slice() == [7, 0, 8, 0, 0, 1].as_slice());
        Ok(())
    }

    #[test]
    fn text_is_read_back(rt: HostRuntime) -> Result<(), Fail> {
        let heap = rt.alloc();
        let river = parse(heap, SHORT)?;
        let text = chance::river_text(heap, river.gauges.as_slice(), river.items.as_slice())?;
        assert!(rt; text.as_str() == SHORT);
        Ok(())
    }

    // Each kind of act once, in the order in which they are printed.
    #[test]
    fn kinds_of_acts(rt: HostRuntime) -> Result<(), Fail> {
        let heap = rt.alloc();
        let mut names = String::new(heap);
        for kind in Kind::ALL {
            names.push_str(format!(in heap; "{kind} ")?.as_str())?;
        }
        let wanted = "asked sought released sent kept recalled told rested faults ";
        assert!(rt; names.as_str() == wanted);
        Ok(())
    }

    #[test]
    fn quotients(rt: HostRuntime) -> Result<(), Fail> {
        let heap = rt.alloc();
        let Some(ratio) = Ratio::new(22, 7) else {
            return Err(Fail::new("this can be divided"));
        };
        assert!(rt; format!(in heap; "{ratio}")?.as_str() == "3.14");
        let Some(ratio) = Ratio::new(61, 20) else {
            return Err(Fail::new("this can be divided"));
        };
        assert!(rt; format!(in heap; "{ratio}")?.as_str() == "3.05");
        assert!(rt; Ratio::new(1, 0) == None);
        Ok(())
    }

    // The command that words apart by blanks give.
    fn asked(heap: Global, line: &str) -> Result<Result<Command, ArgsError>, Fail> {
        let mut words = Vec::new(heap);
        for word in line.split(' ') {
            if !word.is_empty() {
                words.push(String::from_str(heap, word)?)?;
            }
        }
        Ok(command_of(heap, words.as_slice()))
    }

    const BAD: [(&str, ArgsError); 17] = [
        ("play", ArgsError::NoFile),
        ("play a --fast", ArgsError::UnknownOption(2)),
        ("play a --stats b", ArgsError::TooManyWords(3)),
        ("a b", ArgsError::UnknownOption(1)),
        ("a --stats b", ArgsError::TooManyWords(2)),
        ("--stats", ArgsError::UnknownOption(0)),
        ("random", ArgsError::NoSeed),
        ("random 1", ArgsError::NoRivers),
        ("random x 1", ArgsError::SeedNoNumber),
        ("random +1 2", ArgsError::SeedNoNumber),
        ("random 1 -1", ArgsError::RiversNoNumber),
        ("random 1 2 3", ArgsError::TooManyWords(3)),
        ("strike", ArgsError::NoFile),
        ("strike a 3", ArgsError::NotOneOrTwo),
        ("strike a 1 1", ArgsError::TooManyWords(3)),
        ("sums", ArgsError::NoFile),
        ("sums a b", ArgsError::TooManyWords(2)),
    ];

    #[test]
    fn words_that_are_no_command(rt: HostRuntime) -> Result<(), Fail> {
        for (line, error) in BAD {
            assert!(rt; asked(rt.alloc(), line)? == Err(error));
        }
        Ok(())
    }

    // The command that words give, as text.
    fn command(rt: &HostRuntime, line: &str) -> Result<String, Fail> {
        let heap = rt.alloc();
        let text = match asked(heap, line)? {
            Ok(Command::Help) => format!(in heap; "help")?,
            Ok(Command::Play { file, stats }) => format!(in heap; "play {file} {stats}")?,
            Ok(Command::Random { seed, rivers }) => format!(in heap; "random {seed} {rivers}")?,
            Ok(Command::Strike { file, strokes }) => format!(in heap; "strike {file} {strokes:?}")?,
            Ok(Command::Sums { file }) => format!(in heap; "sums {file}")?,
            Err(error) => format!(in heap; "{error}")?,
        };
        Ok(text)
    }

    #[test]
    fn commands(rt: HostRuntime) -> Result<(), Fail> {
        for (line, wanted) in [
            ("--help", "help"),
            ("-h", "help"),
            ("help", "help"),
            ("play a", "play a false"),
            ("play a --stats", "play a true"),
            ("", "play - false"),
            ("a", "play a false"),
            ("a --stats", "play a true"),
            ("random 3 40", "random 3 40"),
            ("strike a", "strike a One"),
            ("strike a 1", "strike a One"),
            ("strike a 2", "strike a Two"),
            ("sums a", "sums a"),
            (
                "random",
                "the seed is missing; `player --help` says how it is used",
            ),
        ] {
            assert!(rt; command(&rt, line)?.as_str() == wanted);
        }
        Ok(())
    }
}
