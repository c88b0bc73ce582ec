//! The scenarios of RFC 8704, sections 2.3 to 3.4, as the rows of the router in question, with the
//! cells that the text asks for: each tells on which interfaces a prefix is in the list by feasible
//! paths and by Algorithm A, and whether it is in Set Z of Algorithm B.
//!
//! AS 64501 stands for the customer that the figures call AS1.
use crate::tests::fed::empty_fed;
use crate::tests::worked::{
    Change, Given, TEST_NET_1, TEST_NET_2, TEST_NET_3, add_all, drains, iface,
};
use rpf_plain::SetEngine;
use urpf_base::Role;

/// 203.0.113.128, the upper half of 203.0.113.0/24.
const UPPER_HALF: u32 = 0xCB00_7180;

/// Section 2.3, figure 1, at AS2: the customer announces its first prefix here, and its second one
/// to the peer AS3, which passes it on.
const FIGURE_1: [Given; 2] = [
    (0, TEST_NET_1, 24, Some(64501)),
    (2, TEST_NET_2, 24, Some(64501)),
];

/// By feasible paths the customer's interface lacks the second prefix.
const LISTS_OF_FIGURE_1: [Change; 2] = [
    (TEST_NET_1, 24, &[0], &[0], true),
    (TEST_NET_2, 24, &[2], &[0], true),
];

#[test]
fn a_customer_that_announces_one_prefix_here_and_one_to_a_peer(rt: HostRuntime) {
    let mut fed = empty_fed(&rt);
    add_all(&rt, &mut fed, &FIGURE_1);
    drains(&rt, &mut fed, &LISTS_OF_FIGURE_1);
}

/// Section 2.3, figure 2, at AS2: the customer announces both prefixes here and to AS3, each with a
/// longer path to one of them. AS3 prefers the shorter path to the first one, which it has from
/// here, so it passes on the second one alone.
const FIGURE_2: [Given; 3] = [
    (0, TEST_NET_1, 24, Some(64501)),
    (0, TEST_NET_2, 24, Some(64501)),
    (2, TEST_NET_2, 24, Some(64501)),
];

const LISTS_OF_FIGURE_2: [Change; 2] = [
    (TEST_NET_1, 24, &[0], &[0], true),
    (TEST_NET_2, 24, &[0, 2], &[0], true),
];

/// AS3 prefers its customer's route.
const CUSTOMER_ROUTE_PREFERRED: [Given; 1] = [(2, TEST_NET_1, 24, Some(64501))];

/// Feasible paths let in the first prefix from AS3 only then.
const LISTS_WHEN_PREFERRED: [Change; 1] = [(TEST_NET_1, 24, &[0, 2], &[0], true)];

#[test]
fn a_peer_that_prefers_a_shorter_path_to_its_customer(rt: HostRuntime) {
    let mut fed = empty_fed(&rt);
    add_all(&rt, &mut fed, &FIGURE_2);
    drains(&rt, &mut fed, &LISTS_OF_FIGURE_2);
    add_all(&rt, &mut fed, &CUSTOMER_ROUTE_PREFERRED);
    drains(&rt, &mut fed, &LISTS_WHEN_PREFERRED);
}

/// Section 3.1, the example in its text: one prefix of the AS comes from a customer, one from a
/// peer and one from a provider.
const FROM_EACH_ROLE: [Given; 3] = [
    (0, TEST_NET_1, 24, Some(64501)),
    (2, TEST_NET_2, 24, Some(64501)),
    (3, TEST_NET_3, 24, Some(64501)),
];

const LISTS_FROM_EACH_ROLE: [Change; 3] = [
    (TEST_NET_1, 24, &[0], &[0], true),
    (TEST_NET_2, 24, &[2], &[0], true),
    (TEST_NET_3, 24, &[3], &[0], true),
];

#[test]
fn prefixes_of_one_origin_from_a_customer_a_peer_and_a_provider(rt: HostRuntime) {
    let mut fed = empty_fed(&rt);
    add_all(&rt, &mut fed, &FROM_EACH_ROLE);
    drains(&rt, &mut fed, &LISTS_FROM_EACH_ROLE);
}

/// Section 3.1, figure 3, at AS4: one prefix of the AS comes over each of two customers, and one
/// over a peer.
const FIGURE_3: [Given; 3] = [
    (0, TEST_NET_1, 24, Some(64501)),
    (1, TEST_NET_2, 24, Some(64501)),
    (2, TEST_NET_3, 24, Some(64501)),
];

/// Both customers' interfaces have all three.
const LISTS_OF_FIGURE_3: [Change; 3] = [
    (TEST_NET_1, 24, &[0], &[0, 1], true),
    (TEST_NET_2, 24, &[1], &[0, 1], true),
    (TEST_NET_3, 24, &[2], &[0, 1], true),
];

#[test]
fn prefixes_of_one_origin_over_two_customers_and_a_peer(rt: HostRuntime) {
    let mut fed = empty_fed(&rt);
    add_all(&rt, &mut fed, &FIGURE_3);
    drains(&rt, &mut fed, &LISTS_OF_FIGURE_3);
}

/// Section 3.1.1, step 4: a customer has routes of two ASes, another customer has one of the second
/// AS, and a peer has one of the first.
const TWO_ORIGINS: [Given; 4] = [
    (0, TEST_NET_1, 24, Some(64501)),
    (0, TEST_NET_2, 24, Some(64502)),
    (1, TEST_NET_3, 25, Some(64502)),
    (2, UPPER_HALF, 25, Some(64501)),
];

/// The first customer has the prefixes of both ASes, and the second those of the second alone.
const LISTS_OF_TWO_ORIGINS: [Change; 4] = [
    (TEST_NET_1, 24, &[0], &[0], true),
    (TEST_NET_2, 24, &[0], &[0, 1], true),
    (TEST_NET_3, 25, &[1], &[0, 1], true),
    (UPPER_HALF, 25, &[2], &[0], true),
];

#[test]
fn a_customer_with_routes_of_two_origins(rt: HostRuntime) {
    let mut fed = empty_fed(&rt);
    add_all(&rt, &mut fed, &TWO_ORIGINS);
    drains(&rt, &mut fed, &LISTS_OF_TWO_ORIGINS);
}

/// Section 3.3, figure 4, at AS4: the customer's prefixes come over AS3, on interface 1. AS2, on
/// interface 0, has them with NO_EXPORT and passes on neither.
const FIGURE_4: [Given; 2] = [
    (1, TEST_NET_1, 24, Some(64501)),
    (1, TEST_NET_2, 24, Some(64501)),
];

/// Interface 0 has them neither by feasible paths nor by Algorithm A, but by Algorithm B.
const LISTS_OF_FIGURE_4: [Change; 2] = [
    (TEST_NET_1, 24, &[1], &[1], true),
    (TEST_NET_2, 24, &[1], &[1], true),
];

/// AS2 passes on one route of the origin, as section 3.2 recommends.
const ONE_ROUTE_PASSED_ON: [Given; 1] = [(0, TEST_NET_1, 24, Some(64501))];

/// That is enough for both prefixes by Algorithm A.
const LISTS_WHEN_PASSED_ON: [Change; 2] = [
    (TEST_NET_1, 24, &[0, 1], &[0, 1], true),
    (TEST_NET_2, 24, &[1], &[0, 1], true),
];

#[test]
fn a_customer_that_passes_on_no_route_and_then_one(rt: HostRuntime) {
    let mut fed = empty_fed(&rt);
    add_all(&rt, &mut fed, &FIGURE_4);
    drains(&rt, &mut fed, &LISTS_OF_FIGURE_4);
    add_all(&rt, &mut fed, &ONE_ROUTE_PASSED_ON);
    drains(&rt, &mut fed, &LISTS_WHEN_PASSED_ON);
}

/// Section 3.4, steps 2 to 5: customer 0 announces nothing, customer 1 one prefix of an AS, a peer and
/// a provider one more each, and the provider one of an AS that no customer has.
const BEHIND_OTHERS: [Given; 4] = [
    (1, TEST_NET_1, 24, Some(64501)),
    (2, TEST_NET_2, 24, Some(64501)),
    (3, TEST_NET_3, 25, Some(64501)),
    (3, UPPER_HALF, 25, Some(64499)),
];

/// Set P is the first prefix, and Set Q the next two.
const LISTS_BEHIND_OTHERS: [Change; 4] = [
    (TEST_NET_1, 24, &[1], &[1], true),
    (TEST_NET_2, 24, &[2], &[1], true),
    (TEST_NET_3, 25, &[3], &[1], true),
    (UPPER_HALF, 25, &[3], &[], false),
];

/// Once interface 1 is a peer's, no origin is in Set A, and the prefixes are feasible alone.
const LISTS_WITHOUT_A_CUSTOMER: [Change; 3] = [
    (TEST_NET_1, 24, &[1], &[], false),
    (TEST_NET_2, 24, &[2], &[], false),
    (TEST_NET_3, 25, &[3], &[], false),
];

#[test]
fn prefixes_of_a_customers_origin_from_a_peer_and_a_provider_alone(rt: HostRuntime) {
    let mut fed = empty_fed(&rt);
    add_all(&rt, &mut fed, &BEHIND_OTHERS);
    drains(&rt, &mut fed, &LISTS_BEHIND_OTHERS);
    fed.set_role(iface(&rt, 1), Role::Peer)
        .expect(&rt, "memory");
    drains(&rt, &mut fed, &LISTS_WITHOUT_A_CUSTOMER);
}
