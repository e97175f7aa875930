// Certificates for the chain of four participants, right and wrong.
use crate::records::{CERTIFICATE, CHAIN, answer};
use std::process::Abort;

// The answer to the certificate with other bytes at these places.
fn altered<const N: usize>(rt: &impl Abort, changes: [(usize, u8); N]) -> (u32, u32, u32) {
    let mut bytes = CERTIFICATE;
    for (place, byte) in changes {
        assert!(rt; place < bytes.len());
        bytes[place] = byte;
    }
    answer(&CHAIN, &bytes)
}

#[test]
fn the_chain_has_three_halves(rt: HostRuntime) {
    assert_eq!(rt; answer(&CHAIN, &CERTIFICATE), (0, 3, 2));
}

#[test]
fn a_wrong_sum_is_refused(rt: HostRuntime) {
    assert_eq!(rt; altered(&rt, [(14, 4)]), (7, 0, 0));
    assert_eq!(rt; altered(&rt, [(4, 1)]), (7, 0, 0));
}

#[test]
fn an_unlawful_line_is_refused(rt: HostRuntime) {
    assert_eq!(rt; altered(&rt, [(39, 0x04)]), (6, 0, 4));
    assert_eq!(rt; altered(&rt, [(21, 0x02), (22, 0x06)]), (6, 0, 1));
}

#[test]
fn multipliers_have_limits(rt: HostRuntime) {
    assert_eq!(rt; altered(&rt, [(37, 0x80), (38, 0x00)]), (3, 0, 4));
    assert_eq!(rt; altered(&rt, [(19, 0xFF), (20, 0xFF)]), (3, 0, 1));
    assert_eq!(rt; altered(&rt, [(38, 0x00), (37, 0x00)]), (3, 0, 4));
}

#[test]
fn sets_have_their_places(rt: HostRuntime) {
    assert_eq!(rt; altered(&rt, [(21, 0x20)]), (4, 0, 1));
    assert_eq!(rt; altered(&rt, [(39, 0x07)]), (4, 0, 4));
    assert_eq!(rt; altered(&rt, [(40, 0x02)]), (4, 0, 4));
}

#[test]
fn heads_have_limits(rt: HostRuntime) {
    assert_eq!(rt; altered(&rt, [(2, 8)]), (3, 0, 0));
    assert_eq!(rt; altered(&rt, [(2, 3)]), (12, 0, 0));
    assert_eq!(rt; altered(&rt, [(14, 0)]), (3, 0, 0));
    assert_eq!(rt; altered(&rt, [(6, 0), (8, 0)]), (3, 0, 0));
}

#[test]
fn records_end_where_they_say(rt: HostRuntime) {
    assert_eq!(rt; altered(&rt, [(16, 13)]), (1, 0, 13));
    assert_eq!(rt; altered(&rt, [(16, 11)]), (11, 0, 0));
    assert_eq!(rt; altered(&rt, [(16, 0)]), (3, 0, 0));
    assert_eq!(rt; altered(&rt, [(15, 0x10), (16, 0x01)]), (3, 0, 0));
    assert_eq!(rt; answer(&CHAIN, &CERTIFICATE[0..16]), (1, 0, 0));
    assert_eq!(rt; answer(&CHAIN, &CERTIFICATE[0..20]), (1, 0, 1));
}

#[test]
fn marks_are_told_apart(rt: HostRuntime) {
    assert_eq!(rt; altered(&rt, [(18, 0x4C)]), (2, 0, 1));
    assert_eq!(rt; altered(&rt, [(18, 0x4C), (0, 0x53)]), (2, 0, 0));
    assert_eq!(rt; answer(&CHAIN, &[]), (1, 0, 0));
}

// A fault of the access structure comes before any of the certificate.
#[test]
fn the_access_structure_comes_first(rt: HostRuntime) {
    assert_eq!(rt; answer(&[0x53, 0x54, 4, 2, 0x02, 0x06], &[]), (5, 0, 0));
    assert_eq!(rt; answer(&[], &[0x43]), (1, 0, 0));
}
