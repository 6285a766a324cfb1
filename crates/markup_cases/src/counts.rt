// How many texts ended in each way.
use markup::ReaderFault;
use std::fmt;

#[derive(Clone, Copy, Default)]
pub(crate) struct Counts {
    pub right: u32,
    pub cut_off: u32,
    pub byte: u32,
    pub other_form: u32,
    pub long_name: u32,
    pub reference: u32,
}

impl Counts {
    // One more text, by its fault if it has one.
    pub(crate) fn note(&mut self, fault: Option<ReaderFault>) {
        let count = match fault {
            None => &mut self.right,
            Some(ReaderFault::CutOff { .. }) => &mut self.cut_off,
            Some(ReaderFault::Byte { .. }) => &mut self.byte,
            Some(ReaderFault::OtherForm { .. }) => &mut self.other_form,
            Some(ReaderFault::LongName { .. }) => &mut self.long_name,
            Some(ReaderFault::Reference { .. }) => &mut self.reference,
        };
        *count = count.saturating_add(1);
    }
}

impl fmt::Display for Counts {
    fn fmt<W: fmt::Write>(&self, f: &mut fmt::Formatter<W>) -> fmt::Result {
        let Counts {
            right,
            cut_off,
            byte,
            other_form,
            long_name,
            reference,
        } = *self;
        write!(
            f,
            "{right} right, 21: {cut_off}, 22: {byte}, 23: {other_form}, 24: {long_name}, 25: {reference}"
        )
    }
}
