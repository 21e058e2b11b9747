//! Two stations, a and b, with what they sent: the lines of a row, played one after another. Where memory is refused a call
//! is made once more. A test ends where memory is refused twice, or what is told isn't what is wanted.
use crate::given::{called, message, name};
use crate::line::Line;
use crate::told::{answered, line_of, put};
use std::process::Abort;
use sup_keeper::{Keeper, MemKeeper};
use sup_placement::FlatWeigh;
use sup_replica::{Act, Config, Done, Event, Letter, Refusal};
use sup_station::Station;
use sup_test_texts::{led, refused, shown};

#[derive(Drop)]
pub(crate) struct Stage {
    a: Station<MemKeeper, FlatWeigh>,
    b: Station<MemKeeper, FlatWeigh>,
    sent_by_a: Vec<Letter>,
    sent_by_b: Vec<Letter>,
    told: String,
    // Which act's save is told to fail, from 1, or 0 for none; and how many acts there were.
    failing: usize,
    acts: usize,
    // How many acts were refused since their save failed, and made once more.
    failed: usize,
}

/// The stations of the row play its lines, and tell what is wanted.
pub(crate) fn plays(rt: &(impl Abort + AllocGlobal), config: Config, lines: &str, wanted: &str) {
    plays_over_failure(rt, config, lines, wanted, 0);
}

/// The same where the save of one act fails, and the act is made once more. Answers how many failed, 0 or 1.
pub(crate) fn plays_over_failure(
    rt: &(impl Abort + AllocGlobal),
    config: Config,
    lines: &str,
    wanted: &str,
    failing: usize,
) -> usize {
    let a = station(rt, "a", config);
    let b = station(rt, "b", config);
    let mut stage = Stage::new(rt, a, b, failing);
    stage.plays_lines(rt, lines, wanted);
    stage.failed
}

/// As `plays` by the default settings, where one of the two stations is stopped and its keeper has this image.
pub(crate) fn plays_from(
    rt: &(impl Abort + AllocGlobal),
    of: &str,
    image: &str,
    lines: &str,
    wanted: &str,
) {
    let mut stage = if of == "a" {
        Stage::new(
            rt,
            stopped(rt, "a", image),
            station(rt, "b", Config::default()),
            0,
        )
    } else {
        Stage::new(
            rt,
            station(rt, "a", Config::default()),
            stopped(rt, "b", image),
            0,
        )
    };
    stage.plays_lines(rt, lines, wanted);
}

fn stopped(
    rt: &(impl Abort + AllocGlobal),
    of: &str,
    image: &str,
) -> Station<MemKeeper, FlatWeigh> {
    let mut keeper = MemKeeper::new(rt.alloc());
    assert!(rt; keeper.save(image.as_bytes()).is_ok());
    Station::stopped(rt.alloc(), name(rt, of), Config::default(), keeper)
}

fn station(
    rt: &(impl Abort + AllocGlobal),
    of: &str,
    config: Config,
) -> Station<MemKeeper, FlatWeigh> {
    let of = name(rt, of);
    match Station::new(rt.alloc(), of, config, MemKeeper::new(rt.alloc())) {
        Ok(station) => station,
        Err(refused) => match Station::new(rt.alloc(), of, config, refused.keeper) {
            Ok(station) => station,
            Err(_) => panic!(rt; "no room"),
        },
    }
}

impl Stage {
    fn new(
        rt: &impl AllocGlobal,
        a: Station<MemKeeper, FlatWeigh>,
        b: Station<MemKeeper, FlatWeigh>,
        failing: usize,
    ) -> Stage {
        Stage {
            a,
            b,
            sent_by_a: Vec::new(rt.alloc()),
            sent_by_b: Vec::new(rt.alloc()),
            told: String::new(rt.alloc()),
            failing,
            acts: 0,
            failed: 0,
        }
    }

    fn plays_lines(&mut self, rt: &(impl Abort + AllocGlobal), lines: &str, wanted: &str) {
        for line in lines.lines() {
            self.plays_line(rt, &Line::of(line));
        }
        assert!(rt; self.told.as_str() == wanted);
    }

    fn plays_line(&mut self, rt: &(impl Abort + AllocGlobal), line: &Line<'_>) {
        match line.verb {
            "show" => self.shows(rt, line.at),
            "message" => self.tells_message(rt, line),
            "image" => self.tells_image(rt, line.at),
            "where" => self.tells_lead(rt, line),
            "deliver" => {
                let at = if line.at == "a" { "b" } else { "a" };
                self.plays_act(rt, line, at);
            }
            _ => self.plays_act(rt, line, line.at),
        }
    }

    // The act is made, once more where memory is refused, and once more where its save is the one that fails.
    fn plays_act(&mut self, rt: &(impl Abort + AllocGlobal), line: &Line<'_>, at: &str) {
        self.acts = self.acts.saturating_add(1);
        let due = self.acts == self.failing;
        self.fails_next(at, due || line.fails);
        let answer = self.tries_twice(rt, line, at);
        self.fails_next(at, false);
        if due && answer.as_ref().err() == Some(&Refusal::KeepFailed) {
            self.failed = self.failed.saturating_add(1);
            let again = self.tries(rt, line, at);
            self.tells(rt, at, again);
        } else {
            self.tells(rt, at, answer);
        }
    }

    fn tries_twice(
        &mut self,
        rt: &(impl Abort + AllocGlobal),
        line: &Line<'_>,
        at: &str,
    ) -> Result<Done, Refusal> {
        match self.tries(rt, line, at) {
            Err(Refusal::OutOfMemory) => self.tries(rt, line, at),
            answer => answer,
        }
    }

    fn tries(
        &mut self,
        rt: &(impl Abort + AllocGlobal),
        line: &Line<'_>,
        at: &str,
    ) -> Result<Done, Refusal> {
        let act = self
            .act(rt, line)
            .or_else(|| self.act(rt, line))
            .expect(rt, "room");
        self.step(at, act)
    }

    fn act(&self, rt: &(impl Abort + AllocGlobal), line: &Line<'_>) -> Option<Act> {
        if line.verb == "deliver" || line.verb == "return" {
            let bytes = self.message(rt, line);
            return Some(Act::Event(Event::Deliver(message(rt.alloc(), bytes)?)));
        }
        line.act(rt)
    }

    // The bytes of the message that the line names, by its sender and its number among the sender's.
    fn message(&self, rt: &impl Abort, line: &Line<'_>) -> &[u8] {
        let sent = if line.at == "a" {
            &self.sent_by_a
        } else {
            &self.sent_by_b
        };
        let number = line.word.parse::<usize>().unwrap_or(0);
        match sent.as_slice().get(number.saturating_sub(1)) {
            Some(letter) => letter.bytes.as_slice(),
            None => panic!(rt; "no such message"),
        }
    }

    fn step(&mut self, at: &str, act: Act) -> Result<Done, Refusal> {
        if at == "a" {
            self.a.step(act, 0, &FlatWeigh)
        } else {
            self.b.step(act, 0, &FlatWeigh)
        }
    }

    fn fails_next(&mut self, at: &str, fails: bool) {
        if at == "a" {
            self.a.fail_next(fails);
        } else {
            self.b.fail_next(fails);
        }
    }

    fn tells(&mut self, rt: &(impl Abort + AllocGlobal), at: &str, answer: Result<Done, Refusal>) {
        match answer {
            Err(refusal) => {
                let text = refused(rt.alloc(), refusal).expect(rt, "room");
                put(rt, &mut self.told, text.as_str());
            }
            Ok(done) => self.tells_done(rt, at, done),
        }
    }

    fn tells_done(&mut self, rt: &(impl Abort + AllocGlobal), at: &str, done: Done) {
        let number = done.out.as_ref().map(|_| self.next_number(at));
        let text = answered(rt, &name(rt, at), &done, number);
        put(rt, &mut self.told, text.as_str());
        let Done { out, .. } = done;
        if let Some(letter) = out {
            self.posts(rt, at, letter);
        }
    }

    fn next_number(&self, at: &str) -> u64 {
        if at == "a" {
            self.sent_by_a.len() as u64 + 1
        } else {
            self.sent_by_b.len() as u64 + 1
        }
    }

    fn posts(&mut self, rt: &impl Abort, at: &str, letter: Letter) {
        if at == "a" {
            post(rt, &mut self.sent_by_a, letter);
        } else {
            post(rt, &mut self.sent_by_b, letter);
        }
    }

    fn shows(&mut self, rt: &(impl Abort + AllocGlobal), at: &str) {
        let text = if at == "a" {
            shown(rt.alloc(), &name(rt, at), self.a.node()).expect(rt, "room")
        } else {
            shown(rt.alloc(), &name(rt, at), self.b.node()).expect(rt, "room")
        };
        put(rt, &mut self.told, text.as_str());
    }

    fn tells_message(&mut self, rt: &(impl Abort + AllocGlobal), line: &Line<'_>) {
        let text = line_of(rt, self.message(rt, line));
        put(rt, &mut self.told, text.as_str());
    }

    fn tells_image(&mut self, rt: &(impl Abort + AllocGlobal), at: &str) {
        let text = if at == "a" {
            line_of(rt, self.a.keeper().stored())
        } else {
            line_of(rt, self.b.keeper().stored())
        };
        put(rt, &mut self.told, text.as_str());
    }

    fn tells_lead(&mut self, rt: &(impl Abort + AllocGlobal), line: &Line<'_>) {
        let at = name(rt, line.at);
        let sought = called(rt.alloc(), line.word).expect(rt, "room");
        let text = if line.at == "a" {
            led(rt.alloc(), &at, self.a.node(), &sought).expect(rt, "room")
        } else {
            led(rt.alloc(), &at, self.b.node(), &sought).expect(rt, "room")
        };
        put(rt, &mut self.told, text.as_str());
    }
}

fn post(rt: &impl Abort, sent: &mut Vec<Letter>, letter: Letter) {
    if let Err(failed) = sent.push(letter) {
        assert!(rt; sent.push(failed.value).is_ok(), "room");
    }
}
