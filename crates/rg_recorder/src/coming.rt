// The record that is to be asked next.
use rg_base::Seq;
use std::sync::atomic::{AtomicBool, Ordering};
use std::sync::{Mutex, Wait};

/// The next record of a list that is followed. The recorder that follows puts it in, and who asks the records again takes it. Nothing
/// is proved of it: a record that isn't the next one stops the recorder.
#[derive(Drop)]
pub struct Coming {
    record: Mutex<Option<Seq<u8>>>,
    has_strayed: AtomicBool,
}

impl Coming {
    /// No record.
    pub fn new() -> Coming {
        Coming {
            record: Mutex::new(None),
            has_strayed: AtomicBool::new(false),
        }
    }

    /// Puts a record in. One that is there goes.
    pub fn put<R: Wait>(&self, rt: &R, record: Seq<u8>) {
        let mut place = self.record.lock(rt);
        *place = Some(record);
    }

    /// Takes the record; None where there is none.
    pub fn take<R: Wait>(&self, rt: &R) -> Option<Seq<u8>> {
        let mut place = self.record.lock(rt);
        place.take()
    }

    /// Another record was asked than the next one of the list.
    pub fn stray(&self) {
        self.has_strayed.store(true, Ordering::SeqCst);
    }

    /// Whether another record was asked than the next one of the list.
    pub fn has_strayed(&self) -> bool {
        self.has_strayed.load(Ordering::SeqCst)
    }
}
