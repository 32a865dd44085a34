//! A client at work, in a thread of its own or in one for all.
ghost use Rattle.std.specs.Prelude.{◌≡◌, ◌≤◌, [], length, map, vec_capacity, All};
ghost use Rattle.xa_base.specs.Lists.{Pairwise};
ghost use Rattle.xa_desk.specs.Kept.{AllKept};
ghost use Rattle.xa_crew.specs.Run.{CanTell, HasWorked, IsReady};

use crate::client::Client;
use crate::ending::end_desk;
use crate::laws::idles_go_on;
use std::sync::Wait;
use xa_desk::{Desk, EndedDesk, Idle, Spin};
use xa_jobs::{Go, Job};
use xa_words::Code;

/// A client that has worked.
#[derive(Drop)]
pub struct Attended<C> {
    /// The client as its work left it.
    pub client: C,
    /// What was outstanding after its work, by rising handle: the number of each handle, from 1 to 32, with
    /// the code of its operation.
    pub outstanding: Vec<(u32, Code)>,
}

/// A client with its desk, and room to tell what will be outstanding.
#[derive(Drop)]
pub(crate) struct ClientJob<C> {
    client: C,
    desk: Desk,
    outstanding: Vec<(u32, Code)>,
}

/// A client that has worked, and its desk that has ended.
#[derive(Drop)]
pub(crate) struct Worked<C> {
    pub(crate) attended: Attended<C>,
    pub(crate) desk: EndedDesk,
}

impl<C: Client> Job<Worked<C>> for ClientJob<C> {
    ghost use Rattle.xa_crew.specs.Run.{IsReady, HasWorked};

    ghost can_run = { λ a. IsReady a };

    ghost comes_to = { λ a w. HasWorked C.works a w };

    fn run<R: Wait>(self, rt: &R, _go: &Go<'_>) -> Worked<C> {
        attend(rt, self, &mut Spin::new())
    }
}

// The client works with its desk; then what is outstanding is collected and told, and the desk ends.
fn attend<R: Wait, C: Client, I: Idle>(rt: &R, job: ClientJob<C>, idle: &mut I) -> Worked<C>
    requires { IsReady job }
    ensures worked { HasWorked C.works job result }
    ensures idled { I.leads idle.old idle.new }
{
    idles_go_on::<I>();
    let ClientJob {
        mut client,
        mut desk,
        mut outstanding,
    } = job;
    client.work(rt, &mut desk, idle);
    let desk = end_desk(rt, desk, idle, &mut outstanding);
    Worked {
        attended: Attended {
            client,
            outstanding,
        },
        desk,
    }
}

/// All clients work so, one after the other, where there is room for what they come to.
pub(crate) fn attend_all<R: Wait, C: Client, I: Idle>(
    rt: &R,
    jobs: Vec<ClientJob<C>>,
    idle: &mut I,
    mut done: Vec<Worked<C>>,
) -> Vec<Worked<C>>
    requires ready { All IsReady jobs.items }
    requires none { done.items ≡ [] }
    requires room { length jobs.items ≤ vec_capacity done }
    ensures worked { Pairwise (HasWorked C.works) jobs.items result.items }
    ensures idled { I.leads idle.old idle.new }
{
    idles_go_on::<I>();
    for job in jobs {
        done.push_reserved(attend(rt, job, idle));
    }
    done
}

/// Each client with the desk at its place, and with room to tell what will be outstanding.
pub(crate) fn client_jobs_of<C: Client>(
    clients: Vec<C>,
    desks: Vec<Desk>,
    outstanding: Vec<Vec<(u32, Code)>>,
    mut jobs: Vec<ClientJob<C>>,
) -> Vec<ClientJob<C>>
    requires as_many { length desks.items ≡ length clients.items }
    requires kept { All AllKept desks.items }
    requires as_many_rooms { length outstanding.items ≡ length clients.items }
    requires rooms { All CanTell outstanding.items }
    requires none { jobs.items ≡ [] }
    requires room { length clients.items ≤ vec_capacity jobs }
    ensures clients { map (λ a. a.client) result.items ≡ clients.items }
    ensures desks { map (λ a. a.desk) result.items ≡ desks.items }
    ensures ready { All IsReady result.items }
{
    let mut desks = desks.into_iter();
    let mut rooms = outstanding.into_iter();
    for client in clients {
        let Some(desk) = desks.next() else {
            unreachable!()
        };
        let Some(outstanding) = rooms.next() else {
            unreachable!()
        };
        jobs.push_reserved(ClientJob {
            client,
            desk,
            outstanding,
        });
    }
    jobs
}
