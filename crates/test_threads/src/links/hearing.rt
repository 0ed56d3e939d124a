// A link that notes whether the bell was rung before each of its writes.
use rg_base::Failed;
use rg_ports::Link;
use rg_session::Bell;
use std::alloc::Global;
use std::sync::Wait;

/// A link, and for each write ` rung` or ` silent`: whether the bell was rung since the last one.
#[derive(Drop)]
pub(crate) struct HearingLink<'b, T, R> {
    pub(crate) link: T,
    pub(crate) heard: String,
    bell: &'b Bell,
    rt: &'b R,
}

/// Takes the ring, if there is one. A bell that is shut keeps nobody waiting.
fn take_ring<R: Wait>(rt: &R, bell: &Bell) -> bool {
    bell.shut(rt);
    bell.wait(rt)
}

impl<'b, T: Link, R: Wait + Sync> HearingLink<'b, T, R> {
    pub(crate) fn new(alloc: Global, rt: &'b R, bell: &'b Bell, link: T) -> HearingLink<'b, T, R> {
        HearingLink {
            link,
            heard: String::new(alloc),
            bell,
            rt,
        }
    }
}

impl<'b, T: Link, R: Wait + Sync> Link for HearingLink<'b, T, R> {
    ghost left = { λ l. T.left l.link };

    ghost held = { λ l. T.held l.link };

    ghost ended = { λ l. T.ended l.link };

    ghost faults = { λ l. T.faults l.link };

    fn read(&mut self, room: &mut [u8]) -> Result<usize, Failed> {
        self.link.read(room)
    }

    fn write(&mut self, piece: &[u8]) -> Result<usize, Failed> {
        let word = if take_ring(self.rt, self.bell) {
            " rung"
        } else {
            " silent"
        };
        let _noted = self.heard.push_str(word);
        self.link.write(piece)
    }
}
