// The first callers that the docs of the crates of threads and logs show.

ghost use Rattle.std.specs.Prelude.{◌≡◌, None};

use hlc_core::{Cluster, Step};
use hlc_examples::{count_lines, make_storm, write_and_read, write_at_both, wrote_only};
use hlc_held::{Group, Held};
use hlc_stamp::{EventId, NodeId, Stamp};
use std::alloc::Global;
use std::marker::Brand;
use std::process::Abort;
use std::sync::Wait;
use std::sync::ledger::Blank;

#[test]
fn lines_are_counted(rt: HostRuntime) {
    let one = b"a\nb\n".to_vec(rt.alloc()).expect(&rt, "a text");
    let two = b"c".to_vec(rt.alloc()).expect(&rt, "a text");
    let texts = vec![in rt.alloc(); one, two].expect(&rt, "texts");
    let counts = count_lines(&rt, rt.alloc(), texts);
    assert!(rt; counts.is_ok_and(|counts| counts.as_slice() == [2, 0].as_slice()));
}

fn ask_all(rt: &impl Abort, cluster: &mut Cluster, node: u16, steps: Vec<Step>) {
    for step in steps {
        cluster
            .act(NodeId(node), step.reading, step.action)
            .expect(rt, "an event");
    }
}

#[test]
fn no_step_of_a_storm_is_refused(rt: HostRuntime) {
    let (mut cluster, lists) = make_storm(rt.alloc(), 7, 3, 5).expect(&rt, "a storm");
    let mut node: u16 = 0;
    for steps in lists {
        ask_all(&rt, &mut cluster, node, steps);
        node = node.wrapping_add(1);
    }
    assert!(rt; cluster.history().len() == 15);
}

fn read_what_is_written<L: Group>(rt: &impl Abort, alloc: Global, blank: Blank)
    requires ledger { blank.name ≡ L.name }
    requires parts { (blank.parts ≡ L.parts) × (blank.parts ≡ L.nodes) × (blank.parts ≡ 2) }
    requires capacity { L.capacity ≡ 16 }
    requires limit { L.limit ≡ None }
{
    let cluster = Cluster::new(alloc, 2, 16).expect(rt, "a cluster");
    let (mut held, mut seats) = Held::<L>::new(alloc, blank, cluster).expect(rt, "seats");
    let seat = seats.first_mut().expect(rt, "a seat");
    let seen = write_and_read(alloc, &mut held, seat, 10, b"cart", b"apples");
    let seen = seen.expect(rt, "a look").expect(rt, "an entry");
    assert!(rt;
        seen.value
            .is_some_and(|value| value.as_slice() == b"apples".as_slice())
    );
}

#[test]
fn a_seat_reads_what_it_wrote(rt: HostRuntime) {
    read_what_is_written::<Brand>(&rt, rt.alloc(), Blank::new(2));
}

fn report_writes<L: Group, R: Wait + Abort>(rt: &R, alloc: Global, blank: Blank)
    requires ledger { blank.name ≡ L.name }
    requires parts { (blank.parts ≡ L.parts) × (blank.parts ≡ L.nodes) × (blank.parts ≡ 2) }
    requires capacity { L.capacity ≡ 100 }
    requires limit { L.limit ≡ None }
{
    let (key, value) = (b"cart".as_slice(), b"apples".as_slice());
    let closed = write_at_both::<L, R>(rt, alloc, blank, key, value).expect(rt, "a history");
    let (node, stamp) = (NodeId(1), Stamp { l: 10, c: 0 });
    for event in 0..3 {
        let event = EventId(event);
        let answer = wrote_only(alloc, &closed.history, node, 10, key, value, event, stamp);
        assert!(rt; answer.expect(rt, "an answer") == (event == EventId(1)));
    }
}

#[test]
fn a_report_is_borne_out(rt: HostRuntime) {
    report_writes::<Brand, _>(&rt, rt.alloc(), Blank::new(2));
}
