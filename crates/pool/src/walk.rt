// The walk along a chromosome: its bases go into a window, which is cut, built and written whenever its stretch has no room for what
// comes next. So every stretch is as full as it can be, and no record lies across a cut. Once there was a fault nothing more is built or
// written, and the rest is only looked through.
use crate::about::{ABOUT, put_about};
use crate::records::Records;
use crate::reference::Reference;
use crate::window::Window;
use crate::words::{REFERENCE, VARIANTS, tell};
use files::{Told, say_line, write_all};
use lines::{put_line, put_number};
use stretch::Written;
use text::compare::alike;
use text::numbers::least;
use text::{limits, part};
use text_files::Built;
use vcf::records::record::field;
use vcf::{Measured, build};

// How many digits are said of the number of bases that the variant file has: the first fifteen, if there are more.
const DIGITS: usize = 15;

// How far both files have come, the window at hand, and what is written, with the manifest's lines.
#[derive(Drop)]
pub struct Walk<'a, 's, 'v> {
    pub rt: &'a HostRuntime,
    pub window: Window<'s>,
    pub reference: Reference<'a, 's>,
    pub records: Records<'a, 's, 'v>,
    pub built: Built<'a>,
    pub lines: &'s mut [u8],
}

impl Walk<'_, '_, '_> {
    // How many bases the text has so far.
    pub fn bases(&self) -> usize {
        self.window.next_position().wrapping_sub(1)
    }

    // The window's stretch, built and written. Progress is said each hundred stretches.
    fn build_window(&mut self) -> Result<(), Told> {
        let rt = self.rt;
        let mut out = [0u8; limits::GREATEST_STRETCH];
        let first = self.window.first;
        match build(
            self.window.lines(),
            self.window.bases(),
            first,
            b"",
            &mut out,
        ) {
            Written::Bytes(n) => self
                .built
                .write_stretch(rt, part(&out, 0, n), &mut *self.lines)?,
            Written::Refused(wrong) => {
                tell(rt, REFERENCE, "a window could not be built");
                say_line(
                    rt,
                    format_args!("refused {} at {}", wrong.number, wrong.place),
                );
                return Err(Told);
            }
        }
        let stretches = self.built.stretches;
        let bases = self.bases();
        if stretches % 100 == 0 {
            say_line(rt, format_args!("{stretches} stretches, {bases} bases"));
        }
        Ok(())
    }

    // Builds the window's stretch and writes it, unless something is wrong, and the next window begins.
    fn cut_window(&mut self) -> Result<(), Told> {
        if self.records.faults == 0 {
            self.build_window()?;
        }
        self.window.pass();
        Ok(())
    }

    // One step towards a position that many bases away: a cut where there is no room, the next piece after one that is used up, or bases of
    // the one that is held. Whether the chromosome goes on.
    fn step(&mut self, wanted: usize) -> Result<bool, Told> {
        let most = self.window.room();
        if most == 0 {
            self.cut_window()?;
            Ok(true)
        } else if self.reference.source.at == self.reference.source.end {
            self.reference.turn_page(self.records.is_unended)
        } else {
            self.reference.take(&mut self.window, least(wanted, most))
        }
    }

    // Takes the bases before a position. Whether the chromosome has as many. Nothing counts the steps, so the loop counts to a number that no
    // run uses up.
    fn take_to(&mut self, position: usize) -> Result<bool, Told> {
        for _ in 0..u64::MAX {
            let here = self.window.next_position();
            if position <= here {
                break;
            }
            if !self.step(position - here)? {
                return Ok(false);
            }
        }
        Ok(true)
    }

    // Nothing comes of a record that the chromosome has no bases for.
    fn end_beyond(&mut self, reason: &str) -> Result<(), Told> {
        self.records.refuse(reason)?;
        Err(Told)
    }

    // Puts a record's line after those of the window, if its REF is what the reference has there: the last bases of the window.
    fn enter(&mut self) -> Result<(), Told> {
        let reference = field(self.records.line(), 3);
        let bases = self.window.bases();
        let from = bases.len().wrapping_sub(reference.len());
        if !alike(reference, part(bases, from, bases.len())) {
            return self
                .records
                .refuse("REF is not what the reference has there");
        }
        if !self.window.put_line(self.records.line()) {
            return self.records.refuse("POS has too many zeros in front");
        }
        Ok(())
    }

    // Takes a record, the bases before it first. Where there is no room for its segment, the window is cut, and the next one has room.
    fn take_record(&mut self, record: Measured) -> Result<(), Told> {
        if record.position < self.window.next_position() {
            return self.records.refuse(
                "it begins before the record before it ends: positions must rise, and records must not overlap",
            );
        }
        if !self.take_to(record.position)? {
            return self.end_beyond("the record stands after the last base of the chromosome");
        }
        if !self.window.hold_record(record.bytes) {
            self.cut_window()?;
            self.window.hold_record(record.bytes);
        }
        self.window.is_inside = true;
        let is_whole = self.take_to(record.position.wrapping_add(record.bases))?;
        self.window.is_inside = false;
        if !is_whole {
            return self.end_beyond("the record goes beyond the last base of the chromosome");
        }
        self.enter()
    }

    // What the whole of both files says: whether the sequence has a base, and as many of them as the variant file says.
    fn judge(&mut self) -> Result<(), Told> {
        let bases = self.bases();
        if bases == 0 {
            tell(self.rt, REFERENCE, "the sequence of that name has no base");
            return self.records.count_fault();
        }
        match self.records.bases {
            Some(said) if said != bases as u64 => {
                let mut digits = [0u8; DIGITS];
                let end = put_number(said, &mut digits, 0);
                let said = std::str::from_utf8(part(&digits, 0, end)).unwrap_or("");
                tell(
                    self.rt,
                    VARIANTS,
                    format_args!(
                        "its ##contig line says that the chromosome has {said} bases; the reference has {bases}"
                    ),
                );
                self.records.count_fault()
            }
            _ => Ok(()),
        }
    }

    // The last window, which may be empty where another was before it.
    fn cut_last(&mut self) -> Result<(), Told> {
        if self.window.count == 0 {
            return Ok(());
        }
        self.cut_window()
    }

    // Writes the manifest of a text whose stretches are written, and prints what was done: how many stretches, bases, records of the
    // chromosome and records of others.
    fn end_text(&mut self) -> Result<(), Told> {
        let rt = self.rt;
        let mut about = [0u8; ABOUT];
        let end = put_about(self, &mut about);
        self.built
            .write_manifest(rt, part(&about, 0, end), &mut *self.lines)?;
        let mut done = [0u8; 128];
        let first = put_line(b"stretches ", self.built.stretches, &mut done, 0);
        let second = put_line(b"bases ", self.bases() as u64, &mut done, first);
        let third = put_line(b"records ", self.records.own, &mut done, second);
        let end = put_line(b"others ", self.records.others, &mut done, third);
        if write_all(&mut rt.stdout(), part(&done, 0, end)).is_err() {
            say_line(rt, "pool: standard output could not be written");
        }
        Ok(())
    }

    // After the last base, and no record is left: the rest of the reference is read for its digest.
    fn end(&mut self) -> Result<(), Told> {
        let judged = self.judge();
        let cut = self.cut_last();
        let read = self.reference.source.read_to_end(self.rt);
        if self.records.faults != 0 {
            say_line(self.rt, "pool: nothing was built");
            return Err(Told);
        }
        judged.and(cut).and(read)?;
        self.end_text()
    }

    // Takes every record, and the bases after the last.
    pub fn run(&mut self) -> Result<(), Told> {
        for _ in 0..u64::MAX {
            match self.records.next_record()? {
                Some(record) => self.take_record(record)?,
                None => break,
            }
        }
        self.take_to(usize::MAX)?;
        self.end()
    }
}
