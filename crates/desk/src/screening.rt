// One text by its stretches, one after another: each is read once and handed to the night, and what comes of it is told. The segments in
// which sequences end are told file by file: the night says of each sequence whether one more was found, and those are searched for once
// more.
use crate::about::tell_about;
use crate::faults::{tell_list, tell_stretch, tell_text};
use crate::listed::Lines;
use crate::tell::{tell_done, tell_hit, tell_hits, tell_verdict};
use desk_list::Withheld;
use desk_night::Night;
use desk_verdict::{Standing, pass};
use files::{Told, WORD, folder, read_file, tell, word};
use lines::put_bytes;
use manifest::next_stretch;
use text::{limits, part};

// Room for a path that is too long too, so that none is cut to another file's.
const PATH: usize = 8448;

// Where the stretches are named: in the manifest of this path, or on the command line from this word on.
#[derive(Clone, Copy)]
pub enum Named<'a> {
    Listed(&'a [u8]),
    Words(usize),
}

// The list, the manifest, which is empty where nobody vouches, where the stretches are named, and the night so far.
#[derive(Drop)]
pub struct Screening<'a> {
    pub rt: &'a HostRuntime,
    pub list: &'a [u8],
    pub text: &'a [u8],
    pub named: Named<'a>,
    pub night: Night,
}

impl Screening<'_> {
    // What a sequence has come to in a stretch: nothing more; its first end, which is the last segment that it counts; or the ends of this
    // stretch.
    fn tell_sequence(
        &self,
        withheld: Withheld,
        before: Standing,
        after: Standing,
        stretch: &[u8],
        name: &[u8],
    ) -> Result<(), Told> {
        if after.ends == before.ends {
            return Ok(());
        }
        if self.night.first {
            let last = after.segments.wrapping_sub(before.segments).wrapping_sub(1);
            return tell_hit(self.rt, withheld.label, before.segments, last, name);
        }
        let pattern = part(self.list, withheld.start, withheld.end);
        let mut marks = [0u8; limits::MOST_IN_STRETCH];
        match pass(pattern, before, stretch, &mut marks) {
            Ok(passed) => tell_hits(
                self.rt,
                withheld.label,
                before.segments,
                name,
                part(&marks, 0, passed.segments),
            ),
            Err(_) => Ok(()),
        }
    }

    // Every segment of this stretch in which a sequence ends, by what the night was before it and is now.
    fn tell_stretch_hits(&self, before: Night, stretch: &[u8], name: &[u8]) -> Result<(), Told> {
        let sequences = Lines::of(self.list).filter_map(|line| line.said.unwrap_or(None));
        let standings = before.standings.into_iter().zip(self.night.standings);
        for (withheld, (before, after)) in sequences.zip(standings) {
            self.tell_sequence(withheld, before, after, stretch, name)?;
        }
        Ok(())
    }

    // These bytes, which are the stretch of this file.
    fn hand_bytes(&mut self, stretch: &[u8], path: &[u8]) -> Result<(), Told> {
        let before = self.night;
        self.night = before.over(self.list, self.text, stretch);
        self.tell_stretch_hits(before, stretch, path)?;
        tell_stretch(self.rt, self.night.trouble, path);
        Ok(())
    }

    // The file of this path, as the next stretch of the text. Of one that is too long the first bytes are handed in: they are refused.
    fn hand_in(&mut self, path: &[u8]) -> Result<(), Told> {
        let mut bytes = [0u8; limits::GREATEST_STRETCH + 1];
        match read_file(self.rt, path, &mut bytes) {
            Ok(Some(stretch)) => self.hand_bytes(stretch, path),
            Ok(None) => {
                tell(
                    self.rt,
                    path,
                    "it has more than 32,768 bytes, and no stretch has",
                );
                self.hand_bytes(&bytes, path)
            }
            Err(Told) => {
                self.night = self.night.missed();
                tell_stretch(self.rt, self.night.trouble, path);
                Ok(())
            }
        }
    }

    // The next stretch of the manifest, in the folder of this path. After the last, the night is as it was.
    fn hand_next(&mut self, path: &[u8]) -> Result<(), Told> {
        let next = next_stretch(self.text, self.night.at);
        let Some(Ok(Some(stretch))) = next.map(|line| line.said) else {
            return Ok(());
        };
        let mut file = [0u8; PATH];
        let from = put_bytes(&path[..folder(path)], &mut file, 0);
        let name = part(self.text, stretch.start, stretch.end);
        let end = put_bytes(name, &mut file, from);
        self.hand_in(part(&file, 0, end))
    }

    // Stretch i of the night.
    fn hand_one(&mut self, i: usize) -> Result<(), Told> {
        match self.named {
            Named::Listed(path) => self.hand_next(path),
            Named::Words(first) => {
                let mut path = [0u8; WORD];
                self.hand_in(word(self.rt, first.saturating_add(i), &mut path))
            }
        }
    }

    // The end of the night: the verdict, and before it what it is about, or what is wrong. Of a text that was not handed in whole, as its
    // manifest has it, only what is wrong is told, and that it is held.
    fn end(&self) -> Result<(), Told> {
        let verdict = self.night.end(self.text);
        match (verdict, self.named) {
            (Ok(_), _) => tell_about(self.rt, self.night, self.list)?,
            (Err(trouble), Named::Listed(path)) => tell_text(self.rt, trouble, path),
            (Err(trouble), Named::Words(_)) => tell_text(self.rt, trouble, b""),
        }
        tell_verdict(self.rt, verdict);
        Ok(())
    }

    // Hands in that many stretches, up to the first that something is wrong with, or after which nothing more is to be read, and tells the
    // verdict.
    pub fn run(&mut self, all: usize) -> Result<(), Told> {
        tell_list(self.rt, self.list, self.night.trouble)?;
        for i in 0..all {
            if self.night.is_over() {
                break;
            }
            self.hand_one(i)?;
            tell_done(self.rt, i + 1, all, self.night.is_over());
        }
        self.end()
    }
}
