// The records of the chromosome, one after another, each as its line in short. A line that is wrong is said and passed over; from then on
// nothing is built or written.
use crate::contig::length_said;
use crate::source::Source;
use crate::words::{TOO_LONG, VARIANTS, tell, tell_at, wrong_record};
use files::{Told, say_line};
use pool_files::{ShortLine, read_line};
use text::part;
use vcf::records::heading;
use vcf::{Measured, measure};

// The most faults that are told.
const MOST_FAULTS: u64 = 20;

// What a turn comes to: nothing yet; a record of the chromosome; or none is left.
enum Got {
    Nothing,
    Record(Measured),
    End,
}

// How far the variant file has come: the line that is read, in short, the number of the last one that was read whole, the place after the
// record's line in short, how many records of the chromosome and of others there were, how many columns a record has and how many bases
// the chromosome, where something says so, whether the last line may have no line feed, and how many faults were told.
#[derive(Drop)]
pub struct Records<'a, 's, 'v> {
    rt: &'a HostRuntime,
    name: &'a [u8],
    pub source: Source<'v>,
    line: ShortLine,
    // Stays a buffer with a place below: the memory is fixed.
    short: &'s mut [u8],
    number: u64,
    behind: usize,
    pub own: u64,
    pub others: u64,
    columns: Option<usize>,
    pub bases: Option<u64>,
    pub is_unended: bool,
    pub faults: u64,
}

// What is wrong with a file that does not begin as a variant file does, if anything is.
fn wrong_heading(first: &[u8]) -> Option<&'static str> {
    if first.is_empty() {
        Some("the file is empty")
    } else if heading::is_headed(first) {
        None
    } else if first.starts_with(&[0x1F, 0x8B]) {
        Some("it is compressed; unpack it into a file first, by gunzip")
    } else {
        Some("this is no file in Variant Call Format 4: it does not begin with ##fileformat=VCFv4.")
    }
}

// Reads the first piece of a variant file. One that does not begin as such a file is said.
pub fn read_first(rt: &HostRuntime, source: &mut Source<'_>) -> Result<(), Told> {
    source.next_piece(rt)?;
    match wrong_heading(source.piece()) {
        Some(reason) => Err(tell(rt, VARIANTS, reason)),
        None => Ok(()),
    }
}

impl Records<'_, '_, '_> {
    // The records of the chromosome of this name in a variant file whose first piece is read, with room for a line in short.
    pub fn begin<'a, 's, 'v>(
        rt: &'a HostRuntime,
        name: &'a [u8],
        source: Source<'v>,
        is_unended: bool,
        short: &'s mut [u8],
    ) -> Records<'a, 's, 'v> {
        Records {
            rt,
            name,
            source,
            line: ShortLine::at(0),
            short,
            number: 0,
            behind: 0,
            own: 0,
            others: 0,
            columns: None,
            bases: None,
            is_unended,
            faults: 0,
        }
    }

    // The record's line in short.
    pub fn line(&self) -> &[u8] {
        part(self.short, 0, self.behind)
    }

    // Counts a fault that was told, up to the last.
    pub fn count_fault(&mut self) -> Result<(), Told> {
        self.faults = self.faults.wrapping_add(1);
        if self.faults == MOST_FAULTS {
            say_line(self.rt, "pool: 20 faults; the rest is not looked at");
            return Err(Told);
        }
        Ok(())
    }

    // What is wrong with the line that was read last.
    pub fn refuse(&mut self, reason: &str) -> Result<(), Told> {
        tell_at(
            self.rt,
            VARIANTS,
            format_args!(", line {}", self.number),
            reason,
        );
        self.count_fault()
    }

    // A line that is wrong: nothing comes of it.
    fn passed(&mut self, reason: &str) -> Result<Got, Told> {
        self.refuse(reason)?;
        Ok(Got::Nothing)
    }

    // After a line that begins with #: the line of the columns' names, or what is said of the chromosome's length.
    fn after_comment(&mut self, line: ShortLine, columns: usize) {
        if self.kept(line).starts_with(b"CHROM") {
            self.columns = Some(columns);
        } else if let Some(bases) = self.length(line) {
            self.bases = Some(bases);
        }
    }

    // What is kept of a line.
    fn kept(&self, line: ShortLine) -> &[u8] {
        part(self.short, 0, line.behind)
    }

    // How many bases a line says that the chromosome has, if it does.
    fn length(&self, line: ShortLine) -> Option<u64> {
        length_said(self.kept(line), self.name)
    }

    // The record of the line in short, or why it is refused.
    fn measured(&mut self) -> Result<Got, Told> {
        match measure(self.line(), b"") {
            Ok(record) => Ok(Got::Record(record)),
            Err(wrong) => {
                let reason = wrong_record(wrong, self.line());
                self.passed(reason)
            }
        }
    }

    // After a record's line: one with fewer columns than the others may have been cut.
    fn after_record(&mut self, line: ShortLine, columns: usize) -> Result<Got, Told> {
        if !line.has_fields() {
            return self.passed("it has fewer than eight fields, parted by tabs");
        }
        let wanted = self.columns.unwrap_or(columns);
        self.columns = Some(wanted);
        if columns != wanted {
            return self.passed(
                "it does not have as many columns as the #CHROM line, or as the first record where there is none",
            );
        }
        if !line.is_of(self.name) {
            self.others = self.others.wrapping_add(1);
            return Ok(Got::Nothing);
        }
        if !line.whole {
            return self.passed(TOO_LONG);
        }
        self.own = self.own.wrapping_add(1);
        self.behind = line.behind;
        self.measured()
    }

    // After a line that has ended.
    fn after_line(&mut self) -> Result<Got, Told> {
        let line = self.line;
        let columns = line.tabs.wrapping_add(1);
        self.line = ShortLine::at(0);
        self.number = self.number.wrapping_add(1);
        if line.is_comment() {
            self.after_comment(line, columns);
            return Ok(Got::Nothing);
        }
        self.after_record(line, columns)
    }

    // The file has ended, perhaps in a line: the next turn ends the work.
    fn at_end(&mut self) -> Result<Got, Told> {
        if self.line.is_new() {
            return Ok(Got::End);
        }
        if self.is_unended || self.source.feed {
            return self.after_line();
        }
        self.number = self.number.wrapping_add(1);
        self.line = ShortLine::at(0);
        self.passed(
            "it does not end with a line feed: the file may have been cut (--unended takes it as it is)",
        )
    }

    // Reads on to the end of the line or of the piece, after which the next one is read.
    fn turn(&mut self) -> Result<Got, Told> {
        let name = self.name;
        let line = self.line;
        let at = self.source.at;
        let come = read_line(name, line, self.source.piece(), at, &mut *self.short);
        self.line = come.line;
        if let Some(at) = come.next {
            self.source.at = at;
            return self.after_line();
        }
        if !self.source.next_piece(self.rt)? {
            return self.at_end();
        }
        Ok(Got::Nothing)
    }

    // The next record of the chromosome; none after the last. A file with records, but none of this name, most likely has another name for
    // it. Nothing counts the turns, so the loop counts to a number that no run uses up.
    pub fn next_record(&mut self) -> Result<Option<Measured>, Told> {
        for _ in 0..u64::MAX {
            match self.turn()? {
                Got::Nothing => {}
                Got::Record(record) => return Ok(Some(record)),
                Got::End => break,
            }
        }
        if self.own == 0 && 0 < self.others {
            return Err(tell(
                self.rt,
                VARIANTS,
                "none of its records has that name for its chromosome",
            ));
        }
        Ok(None)
    }
}
