//! The cell of a prefix by the definitions of the sets: each question walks the whole list.
use router_config::Kinds;
use rpf_plain::Row;
use urpf_base::{Cell, IfaceId, Mask, Prefix, Role};

/// Whether the interface has a row of the prefix.
fn is_feasible(rows: &[Row], iface: IfaceId, prefix: &Prefix) -> bool {
    for row in rows {
        if row.iface == iface && row.prefix == *prefix {
            return true;
        }
    }
    false
}

/// The interfaces that a customer is behind.
fn customers_of(kinds: &Kinds) -> Mask {
    let mut customers = Mask::empty();
    for (id, kind) in kinds.items() {
        if kind.role == Role::Customer {
            customers = customers.with(*id);
        }
    }
    customers
}

/// Whether a customer interface has a row of the origin.
fn in_set_a(rows: &[Row], customers: Mask, origin: u32) -> bool {
    for row in rows {
        if row.origin == Some(origin) && customers.has(row.iface) {
            return true;
        }
    }
    false
}

/// Whether the interface has a prefix of some row of the origin.
fn received(rows: &[Row], iface: IfaceId, origin: u32) -> bool {
    for row in rows {
        if row.origin == Some(origin) && is_feasible(rows, iface, &row.prefix) {
            return true;
        }
    }
    false
}

/// Whether the prefix of the row is in the list by Algorithm A of the interface for the row's sake.
fn is_listed(rows: &[Row], customers: Mask, iface: IfaceId, row: &Row) -> bool {
    let Some(origin) = row.origin else {
        return false;
    };
    in_set_a(rows, customers, origin) && received(rows, iface, origin)
}

/// Whether the prefix is in the list by Algorithm A of the interface.
fn in_list_a(rows: &[Row], customers: Mask, iface: IfaceId, prefix: &Prefix) -> bool {
    for row in rows {
        if row.prefix == *prefix && is_listed(rows, customers, iface, row) {
            return true;
        }
    }
    false
}

/// Whether the row puts its prefix into Set P or Set Q.
fn is_in_p_or_q(rows: &[Row], customers: Mask, row: &Row) -> bool {
    if customers.has(row.iface) {
        return true;
    }
    match row.origin {
        Some(origin) => in_set_a(rows, customers, origin),
        None => false,
    }
}

/// Whether the prefix is in Set Z.
fn in_set_z(rows: &[Row], customers: Mask, prefix: &Prefix) -> bool {
    for row in rows {
        if row.prefix == *prefix && is_in_p_or_q(rows, customers, row) {
            return true;
        }
    }
    false
}

/// Whether the interface has a row of the origin.
fn is_origin_on(rows: &[Row], iface: IfaceId, origin: u32) -> bool {
    for row in rows {
        if row.iface == iface && row.origin == Some(origin) {
            return true;
        }
    }
    false
}

/// Whether a pair has the prefix, and its AS is the origin of a row of the interface.
fn is_paired(rows: &[Row], pairs: &[(Prefix, u32)], iface: IfaceId, prefix: &Prefix) -> bool {
    for pair in pairs {
        if pair.0 == *prefix && is_origin_on(rows, iface, pair.1) {
            return true;
        }
    }
    false
}

/// Whether a pair has the prefix, and its AS is in Set A.
fn is_paired_in_z(rows: &[Row], pairs: &[(Prefix, u32)], customers: Mask, prefix: &Prefix) -> bool {
    for pair in pairs {
        if pair.0 == *prefix && in_set_a(rows, customers, pair.1) {
            return true;
        }
    }
    false
}

/// Whether the prefix is in the list of the interface by Algorithm A, by the rows or by the pairs.
fn is_in_list(
    rows: &[Row],
    pairs: &[(Prefix, u32)],
    customers: Mask,
    iface: IfaceId,
    prefix: &Prefix,
) -> bool {
    in_list_a(rows, customers, iface, prefix) || is_paired(rows, pairs, iface, prefix)
}

/// The interfaces that have the prefix.
fn feasible_on(rows: &[Row], kinds: &Kinds, prefix: &Prefix) -> Mask {
    let mut ifaces = Mask::empty();
    for item in kinds.items() {
        if is_feasible(rows, item.0, prefix) {
            ifaces = ifaces.with(item.0);
        }
    }
    ifaces
}

/// The customer interfaces whose list by Algorithm A has the prefix.
fn listed_on(rows: &[Row], pairs: &[(Prefix, u32)], kinds: &Kinds, prefix: &Prefix) -> Mask {
    let customers = customers_of(kinds);
    let mut ifaces = Mask::empty();
    for item in kinds.items() {
        if customers.has(item.0) && is_in_list(rows, pairs, customers, item.0, prefix) {
            ifaces = ifaces.with(item.0);
        }
    }
    ifaces
}

/// The cell of a prefix.
pub fn slow_cell(rows: &[Row], pairs: &[(Prefix, u32)], kinds: &Kinds, prefix: &Prefix) -> Cell {
    let customers = customers_of(kinds);
    let by_rows = in_set_z(rows, customers, prefix);
    Cell {
        f: feasible_on(rows, kinds, prefix),
        a: listed_on(rows, pairs, kinds, prefix),
        z: by_rows || is_paired_in_z(rows, pairs, customers, prefix),
    }
}
