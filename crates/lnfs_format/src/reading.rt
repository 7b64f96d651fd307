//! Reading the text of a label byte by byte.

ghost use Rattle.std.specs.Prelude.{◌≡◌, ◌<◌, ◌+◌, ◌*◌, true, nat_lt, if◌then◌else◌, IfOk, OnOk};
ghost use Rattle.lnfs_calipso.specs.declared.bitmap.TheConstants.{COMPARTMENTS};
ghost use Rattle.lnfs_format.specs.Reading.{with_range, bare, closed, step, told, finished, start, start_comps, HasFit};

use lnfs_calipso::{COMPARTMENTS, Label};
use std::alloc::{AllocError, Global};

/// The largest sensitivity.
const MAX_SENSITIVITY: u16 = 255;

/// What was read so far.
#[derive(Drop)]
pub struct Reading {
    label: Label,
    number: u16,
    from: Option<u16>,
    in_comps: bool,
}

/// Adds the compartments from the lower to the higher.
fn insert_range(label: &mut Label, low: u16, high: u16) -> Result<(), AllocError>
    requires { high < COMPARTMENTS }
    ensures { OnOk result (label.new ≡ with_range label.old low high) }
{
    label.law_label();
    for comp in low..high + 1 {
        label.insert(comp)?;
    }
    Ok(())
}

impl Reading {
    /// Before a text. Takes no memory.
    pub fn start(alloc: Global, doi: u32) -> Reading
        ensures { result ≡ start doi }
    {
        Reading {
            label: Label::bare(alloc, doi, 0),
            number: 0,
            from: None,
            in_comps: false,
        }
    }

    /// Before the runs of a label whose DOI and sensitivity are known. Takes no memory.
    pub fn start_comps(alloc: Global, doi: u32, sens: u8) -> Reading
        ensures { result ≡ start_comps doi sens }
    {
        Reading {
            label: Label::bare(alloc, doi, sens),
            number: 0,
            from: None,
            in_comps: true,
        }
    }

    /// Adds the item that was read last to the label.
    fn close(&mut self) -> Result<(), AllocError>
        requires { HasFit self.old }
        ensures { OnOk result (self.new ≡ record self.old { label = closed self.old }) }
    {
        let low = self.from.unwrap_or(self.number);
        insert_range(&mut self.label, low, self.number)
    }

    /// Whether a digit is taken.
    fn digit(&mut self, digit: u8) -> bool
        requires fits { HasFit self.old }
        requires digit { digit < 10 }
        ensures taken { (if result then Some self.new else None)
            ≡ (if nat_lt (10 * self.old.number + digit) COMPARTMENTS
            then Some (record self.old { number = 10 * self.old.number + digit }) else None) }
        ensures fits { HasFit self.new }
    {
        let number = 10 * self.number + u16::from(digit);
        if number >= COMPARTMENTS {
            return false;
        }
        self.number = number;
        true
    }

    /// Whether the sensitivity ends here.
    fn sensitivity(&mut self, alloc: Global) -> bool
        requires { HasFit self.old }
        ensures taken { (if result then Some self.new else None)
            ≡ (if nat_lt self.old.number 256 then Some (record self.old
            { label = bare self.old.label.doi self.old.number; in_comps = true }) else None) }
        ensures fits { HasFit self.new }
    {
        if self.number > MAX_SENSITIVITY {
            return false;
        }
        self.label = Label::bare(alloc, self.label.doi(), self.number as u8);
        self.in_comps = true;
        true
    }

    /// Whether a byte is taken.
    #[tactic(auto, unfolding(crate::specs::Reading::step))]
    fn step(&mut self, alloc: Global, byte: u8) -> Result<bool, AllocError>
        requires { HasFit self.old }
        ensures taken { IfOk result (λ taken. (if taken then Some self.new else None)
            ≡ step self.old byte) }
        ensures fits { OnOk result (HasFit self.new) }
    {
        match byte {
            b'0'..=b'9' => return Ok(self.digit(byte - b'0')),
            b'c' | b's' => self.number = 0,
            b':' => return Ok(self.sensitivity(alloc)),
            b',' => {
                self.close()?;
                self.from = None;
            }
            b'.' => self.from = Some(self.number),
            _ => return Ok(false),
        }
        Ok(true)
    }

    /// The label that the bytes after a start tell, if they are of a text's kind.
    ///
    /// # Errors
    ///
    /// `AllocError` where there is no memory.
    pub fn read(self, alloc: Global, bytes: &[u8]) -> Result<Option<Label>, AllocError>
        requires { HasFit self }
        ensures { IfOk result (λ label. label ≡ told self bytes.now) }
    {
        let mut reading = self;
        for byte in bytes {
            if !reading.step(alloc, *byte)? {
                return Ok(None);
            }
        }
        reading.finished(alloc)
    }

    fn finished(mut self, alloc: Global) -> Result<Option<Label>, AllocError>
        requires { HasFit self }
        ensures { IfOk result (λ label. label ≡ finished self) }
    {
        if self.in_comps {
            self.close()?;
            return Ok(Some(self.label));
        }
        if !self.sensitivity(alloc) {
            return Ok(None);
        }
        Ok(Some(self.label))
    }
}
