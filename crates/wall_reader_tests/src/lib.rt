// Walls as text, what is asked of them, and charts: good ones, and each kind of mistake.
#![tactic(auto)]

#[cfg(test)]
mod tests {
    use rows::Row;
    use std::alloc::{AllocError, Global};
    use std::test::Fail;
    use wall_reader::{
        Filter, Form, Hours, Mark, bar, chart, chosen, csv_text, parse_words, print_and_read, read,
        rows_text,
    };

    // A text, and what is said of it.
    const BAD: [(&str, &str); 13] = [
        ("\nhour 1 place 2: 3\n", "line 1: this line is blank"),
        ("hour 1 place 2: 3\n \t\r\n", "line 2: this line is blank"),
        (
            "hour 1 place 2:\n",
            "line 1: a row is `hour H place P: S`, and here are too few words",
        ),
        (
            "hour 1 place 2 : 3\n",
            "line 1: a row is `hour H place P: S`, and here are too many words",
        ),
        (
            "hour 1 place 2: 3 # told twice\n",
            "line 1: a row is `hour H place P: S`, and here are too many words",
        ),
        (
            "hours 1 place 2: 3\n",
            "line 1: the first word is not `hour`",
        ),
        (
            "hour one place 2: 3\n",
            "line 1: the hour is not a number below 2^64",
        ),
        (
            "hour 1 place 2: 3\nhour 1 plaice 2: 3\n",
            "line 2: the third word is not `place`",
        ),
        (
            "hour 1 place 2 3\n",
            "line 1: the place is not a number below 2^64 and a colon",
        ),
        (
            "hour 1 place : 3\n",
            "line 1: the place is not a number below 2^64 and a colon",
        ),
        (
            "hour 1 place 2: 18446744073709551616\n",
            "line 1: the sum is not a number below 2^64",
        ),
        (
            "hour 1 place 2: 3\nhour 2 place 2: 4\nhour 1 place 2: 5\nhour\n",
            "line 3: hour 1 place 2 is 5 here and 3 above",
        ),
        (
            "hour 1 place 2: 3\nhour 1 place 2: 3\nhour 1 place 2: 5\n",
            "line 3: hour 1 place 2 is 5 here and 3 above",
        ),
    ];

    const WALL: &str =
        "hour 9 place 1: 12\r\nhour 3 place 2: 7\n hour  12 place 1: 40\nhour 9 place 1: 12\nhour 9 place 0: 26\nhour 8 place 1: 80\n";

    #[test]
    fn a_row_that_is_printed_is_read(rt: HostRuntime) -> Result<(), Fail> {
        let row = Row {
            hour: 9,
            place: 1023,
            sum: u64::MAX,
        };
        assert!(rt; print_and_read(rt.alloc(), row)? == Ok(row));
        Ok(())
    }

    #[test]
    fn mistakes_are_told(rt: HostRuntime) -> Result<(), Fail> {
        let heap = rt.alloc();
        for (text, told) in BAD {
            let Err(mistake) = read(heap, text) else {
                return Err(Fail::new(text));
            };
            assert!(rt; format!(in heap; "{mistake}")?.as_str() == told, "{}", text);
        }
        Ok(())
    }

    // A row torn in its sum, in a word and in a blank, one that would contradict, and one that lacks its end alone.
    const TORN: [&str; 5] = [
        "hour 3 place 1023: 42949",
        "hour 3 pla",
        "hour 3 ",
        "hour 1 place 2: 4",
        "hour 3 place 1023: 4294967295",
    ];

    #[test]
    fn a_last_line_without_its_end_is_left_out(rt: HostRuntime) -> Result<(), Fail> {
        let heap = rt.alloc();
        for torn in TORN {
            let text = format!(in heap; "hour 1 place 2: 40\n{torn}")?;
            let Ok(rows) = read(heap, text.as_str()) else {
                return Err(Fail::new(torn));
            };
            assert!(rt;
                rows_text(heap, rows.as_slice())?.as_str() == "hour 1 place 2: 40\n",
                "{}",
                torn
            );
        }
        Ok(())
    }

    // The rows of the wall that are asked for.
    fn rows_of(heap: Global, filter: &Filter) -> Result<Vec<Row>, AllocError> {
        match read(heap, WALL) {
            Ok(rows) => chosen(heap, rows.as_slice(), filter),
            Err(_) => Ok(Vec::new(heap)),
        }
    }

    #[test]
    fn rows_stand_once_and_in_order(rt: HostRuntime) -> Result<(), Fail> {
        let heap = rt.alloc();
        let all = rows_of(heap, &Filter::ALL)?;
        assert_eq!(rt;
            rows_text(heap, all.as_slice())?.as_str(),
            "hour 3 place 2: 7\nhour 8 place 1: 80\nhour 9 place 0: 26\nhour 9 place 1: 12\nhour 12 place 1: 40\n"
        );
        Ok(())
    }

    #[test]
    fn rows_are_comma_separated(rt: HostRuntime) -> Result<(), Fail> {
        let heap = rt.alloc();
        let all = rows_of(heap, &Filter::ALL)?;
        assert_eq!(rt;
            csv_text(heap, all.as_slice())?.as_str(),
            "hour,place,sum\n3,2,7\n8,1,80\n9,0,26\n9,1,12\n12,1,40\n"
        );
        assert_eq!(rt; csv_text(heap, &[])?.as_str(), "hour,place,sum\n");
        Ok(())
    }

    #[test]
    fn rows_are_asked_for(rt: HostRuntime) -> Result<(), Fail> {
        let heap = rt.alloc();
        let filter = Filter {
            hour: None,
            hours: Some(Hours { from: 3, to: 12 }),
            place: Some(1),
        };
        let some = rows_of(heap, &filter)?;
        assert_eq!(rt;
            rows_text(heap, some.as_slice())?.as_str(),
            "hour 8 place 1: 80\nhour 9 place 1: 12\n"
        );
        let filter = Filter {
            hour: Some(9),
            hours: None,
            place: None,
        };
        let some = rows_of(heap, &filter)?;
        assert_eq!(rt;
            rows_text(heap, some.as_slice())?.as_str(),
            "hour 9 place 0: 26\nhour 9 place 1: 12\n"
        );
        Ok(())
    }

    #[test]
    fn a_chart_is_of_one_place(rt: HostRuntime) -> Result<(), Fail> {
        let heap = rt.alloc();
        let filter = Filter {
            hour: None,
            hours: None,
            place: Some(1),
        };
        let rows = rows_of(heap, &filter)?;
        let Ok(marks) = chart(heap, rows.as_slice()) else {
            return Err(Fail::new("no chart of place 1"));
        };
        let drawn = [
            Mark::Bar {
                hour: 8,
                length: 50,
                sum: 80,
            },
            Mark::Bar {
                hour: 9,
                length: 7,
                sum: 12,
            },
            Mark::Gap,
            Mark::Bar {
                hour: 12,
                length: 25,
                sum: 40,
            },
        ];
        assert!(rt; marks.as_slice() == drawn.as_slice());
        Ok(())
    }

    #[test]
    fn other_charts_are_refused(rt: HostRuntime) -> Result<(), Fail> {
        let heap = rt.alloc();
        let all = rows_of(heap, &Filter::ALL)?;
        let Err(mistake) = chart(heap, all.as_slice()) else {
            return Err(Fail::new("a chart of three places"));
        };
        assert_eq!(rt;
            format!(in heap; "{mistake}")?.as_str(),
            "a chart is of one place, and here are places 2 and 1"
        );
        let Err(mistake) = chart(heap, &[]) else {
            return Err(Fail::new("a chart of nothing"));
        };
        assert_eq!(rt;
            format!(in heap; "{mistake}")?.as_str(),
            "there are no rows to chart"
        );
        Ok(())
    }

    #[test]
    fn bars_are_in_proportion(rt: HostRuntime) {
        assert_eq!(rt; bar(12, 80, 50), 7);
        assert_eq!(rt; bar(0, 0, 50), 0);
        assert_eq!(rt; bar(u64::MAX, u64::MAX, u64::MAX), u64::MAX);
        assert_eq!(rt; bar(9, 3, 50), 50);
    }

    // The words, kept apart by blanks.
    fn words(heap: Global, line: &str) -> Result<Vec<String>, AllocError> {
        let mut words = Vec::new(heap);
        for word in line.split(' ') {
            words.push(String::from_str(heap, word)?)?;
        }
        Ok(words)
    }

    // Words, the one that is wrong, and what is said of it.
    const MISUSED: [(&str, usize, &str); 13] = [
        ("--frob", 0, "there is no such option"),
        ("-", 0, "there is no such option"),
        ("a --csv b", 2, "a file is named already"),
        ("a --hour", 1, "its value is missing"),
        ("--hour --csv", 1, "this is not a number below 2^64"),
        ("--place x", 1, "this is not a number below 2^64"),
        ("--hours 3", 1, "hours are two numbers below 2^64, as 3..12"),
        (
            "--hours 3...9",
            1,
            "hours are two numbers below 2^64, as 3..12",
        ),
        (
            "--hours 9..3",
            1,
            "no hours are from the first up to the second",
        ),
        (
            "--hours 3..3",
            1,
            "no hours are from the first up to the second",
        ),
        ("--hour 3 a --hour 3", 3, "this option is given already"),
        ("--csv --chart", 1, "--csv or --chart is given already"),
        ("--chart --chart", 1, "--csv or --chart is given already"),
    ];

    #[test]
    fn wrong_words_are_told(rt: HostRuntime) -> Result<(), Fail> {
        let heap = rt.alloc();
        for (line, word, told) in MISUSED {
            let Err(misuse) = parse_words(words(heap, line)?.as_slice()) else {
                return Err(Fail::new(line));
            };
            let complaint = misuse.complaint;
            assert!(rt; misuse.word == word, "{}", line);
            assert!(rt;
                format!(in heap; "{complaint}")?.as_str() == told,
                "{}",
                line
            );
        }
        Ok(())
    }

    #[test]
    fn words_are_read(rt: HostRuntime) -> Result<(), Fail> {
        let heap = rt.alloc();
        let line = "--hours 3..12 wall.txt --place 4 --hour 5 --chart --help";
        let Ok(request) = parse_words(words(heap, line)?.as_slice()) else {
            return Err(Fail::new(line));
        };
        assert_eq!(rt; request.file, Some(2));
        assert_eq!(rt; request.filter.hours, Some(Hours { from: 3, to: 12 }));
        assert_eq!(rt; request.filter.place, Some(4));
        assert_eq!(rt; request.filter.hour, Some(5));
        assert_eq!(rt; request.form, Form::Chart);
        assert!(rt; request.help);
        Ok(())
    }
}
