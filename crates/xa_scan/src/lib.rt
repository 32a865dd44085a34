//! What a reopening found left at each manager, and where a thread's scans of it stand.
#![tactic(auto)]

ghost use Rattle.std.specs.Prelude.{◌≡◌, map, IfSome, ◌≤◌, length};
ghost use Rattle.std.specs.Arc.{arc_value};
ghost use Rattle.xa_base.specs.Lists.{IsUpTo};
ghost use Rattle.xa_scan.specs.Left.{NoneOpen, no_scan, left_at, place_at, standing};

use std::alloc::Global;
use std::marker::Model;
use std::sync::Arc;
use xa_base::MOST_MANAGERS;
use xa_words::Xid;

/// What a reopening found left at each manager, and where a thread's scans of it stand: the state that `xa_recover`
/// goes by.
pub struct Scan {
    // None at a first opening. All threads of an opening share it.
    left: Option<Arc<Vec<Vec<Xid>>, Global>>,
    places: [Option<usize>; MOST_MANAGERS],
}

// It is dropped by one call, wherever that is, and not part by part there.
impl Drop for Scan {
    fn drop(self) {
        let Scan { left: _, places: _ } = self;
    }
}

impl Model for Scan {
    ghost use Rattle.xa_scan.specs.Left.{ScanView, IsScan, scan_of};

    ghost Value = { ScanView };

    ghost view = { λ z. scan_of z.left z.places };

    ghost invariant = { λ z. IsScan (scan_of z.left z.places) };
}

impl Scan {
    /// The scans of a first opening, at which nothing is left. It takes no memory.
    pub fn none() -> Scan
        ensures none { result ≡ no_scan }
        ensures closed { NoneOpen result }
    {
        Scan {
            left: None,
            places: [None; MOST_MANAGERS],
        }
    }

    /// The scans of an opening that was opened again, at whose managers this was found left; none is open. It takes no
    /// memory.
    pub fn over(left: Arc<Vec<Vec<Xid>>, Global>) -> Scan
        ensures left { result.left ≡ map (λ v. v.items) (arc_value left).items }
        ensures closed { NoneOpen result }
    {
        Scan {
            left: Some(left),
            places: [None; MOST_MANAGERS],
        }
    }

    /// The branches that the reopening found left at the manager, rising; none for no manager.
    pub fn left(&self, manager: u32) -> &[Xid]
        ensures { result.now ≡ left_at self.now manager }
    {
        let place = manager as usize;
        match &self.left {
            Some(left) if 1 <= place && place <= left.len() => &left[place - 1],
            _ => &[],
        }
    }

    /// Where the scan of the manager stands, if one is open: after how many of those left.
    pub fn place(&self, manager: u32) -> Option<usize>
        requires { IsUpTo MOST_MANAGERS manager }
        ensures place { result ≡ place_at self.now manager }
        ensures within { IfSome result (λ k. k ≤ length (left_at self.now manager)) }
    {
        self.places[manager as usize - 1]
    }

    /// From now on the scan of the manager stands here, or is closed.
    pub fn stand(&mut self, manager: u32, place: Option<usize>)
        requires manager { IsUpTo MOST_MANAGERS manager }
        requires within { IfSome place (λ k. k ≤ length (left_at self.old manager)) }
        ensures { self.new ≡ standing self.old manager place }
    {
        self.places[manager as usize - 1] = place;
    }
}
