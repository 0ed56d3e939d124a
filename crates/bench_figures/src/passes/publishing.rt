// Changes of an administration, and their publications.
use super::Load;
use crate::service::OpenService;
use crate::texts::Draft;
use std::alloc::Global;
use std::sync::Wait;
use std::sync::atomic::{AtomicU64, Ordering};
use std::thread;
use std::time::{Clock, Duration};

/// Creates the policies.
pub(super) fn create_all<R: Wait, P: Wait + Drop>(
    rt: &R,
    alloc: Global,
    service: &mut OpenService<P>,
    load: Load,
) {
    for place in 0..load.policies {
        let number = place.saturating_add(1);
        let _is_put = service.put(rt, alloc, Draft::new(number));
    }
}

/// Changes one policy after another, each after a pause, until so many passes have finished, and says how many changes were
/// published.
pub(super) fn change_until<R: Wait + Clock, P: Wait + Drop>(
    rt: &R,
    alloc: Global,
    service: &mut OpenService<P>,
    finished: &AtomicU64,
    load: Load,
) -> u64 {
    let mut published = 0u64;
    for place in 0..u32::MAX {
        if u64::from(load.passes) <= finished.load(Ordering::SeqCst) {
            return published;
        }
        thread::sleep(rt, Duration::from_millis(u64::from(load.pause)));
        let number = (place % load.policies.max(1)).saturating_add(1);
        let draft = Draft {
            id: number,
            number,
            user: place,
        };
        if service.put(rt, alloc, draft) && service.refresh(rt, alloc) {
            published = published.saturating_add(1);
        }
    }
    published
}
