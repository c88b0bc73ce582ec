//! What no clause says: headers made by hand, and one message that comes in every cut.
use bgp_wire::{FrameState, Framer, MsgKind, assigned_numbers, header_decides, one_framing};
use message_octets::{ANNOUNCE, KEEPALIVE};
use std::process::Abort;

/// A header whose marker begins with this octet and goes on with fifteen FF.
fn header(first: u8, length: u16, code: u8) -> [u8; 19] {
    let mut octets = [0xFF; 19];
    let [high, low] = length.to_be_bytes();
    octets[0] = first;
    octets[16] = high;
    octets[17] = low;
    octets[18] = code;
    octets
}

#[test]
fn eighteen_octets_are_no_header(rt: HostRuntime) {
    let mut framer = Framer::new();
    assert_eq!(rt; framer.push(&[0xFF; 18]), 18);
    assert_eq!(rt; framer.state(), FrameState::Partial(18));
    framer.clear();
    assert_eq!(rt; framer.state(), FrameState::Partial(0));
    assigned_numbers();
    header_decides();
    one_framing();
}

/// Takes the piece where more may come.
fn push_more(framer: &mut Framer, piece: &[u8]) -> usize {
    match framer.state() {
        FrameState::Partial(_) => framer.push(piece),
        _ => 0,
    }
}

/// The kind and the body of a whole message.
fn message(framer: &Framer) -> Option<(MsgKind, &[u8])> {
    match framer.state() {
        FrameState::Whole(kind) => Some((kind, framer.body())),
        _ => None,
    }
}

#[test]
fn a_message_is_framed_alike_however_it_is_cut(rt: HostRuntime) {
    let whole = Some((MsgKind::Update, &ANNOUNCE[19..]));
    for cut in 0..ANNOUNCE.len() {
        let mut framer = Framer::new();
        assert_eq!(rt; push_more(&mut framer, &ANNOUNCE[..cut]), cut);
        assert_eq!(rt; framer.state(), FrameState::Partial(cut as u16));
        assert_eq!(rt;
            push_more(&mut framer, &ANNOUNCE[cut..]),
            ANNOUNCE.len() - cut
        );
        assert_eq!(rt; message(&framer), whole, "cut at {cut}");
    }
    let mut framer = Framer::new();
    for octet in ANNOUNCE {
        assert_eq!(rt; push_more(&mut framer, &[octet]), 1);
    }
    assert_eq!(rt; message(&framer), whole, "octet by octet");
}

#[test]
fn what_follows_a_message_is_left_for_the_next(rt: HostRuntime) {
    let mut stream = [0; 66];
    stream[..47].copy_from_slice(&ANNOUNCE);
    stream[47..].copy_from_slice(&KEEPALIVE);
    let mut framer = Framer::new();
    assert_eq!(rt; framer.push(&stream), 47);
    if let FrameState::Whole(_) = framer.state() {
        framer.next();
    }
    assert_eq!(rt; push_more(&mut framer, &stream[47..]), 19);
    assert_eq!(rt; message(&framer), Some((MsgKind::Keepalive, [].as_slice())));
}

#[test]
fn a_marker_that_is_not_all_ones_is_a_fault_at_each_of_its_places(rt: HostRuntime) {
    for place in 0..16 {
        for octet in [0x00, 0x7F, 0xFE] {
            let mut octets = header(0xFF, 19, 4);
            octets[place] = octet;
            let mut framer = Framer::new();
            assert_eq!(rt; framer.push(&octets), 19, "{octet} at {place}");
            assert_eq!(rt; framer.state(), FrameState::Fault(1), "{octet} at {place}");
        }
    }
}
