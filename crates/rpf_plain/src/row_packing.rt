//! From a row to the key of its family, and back.
ghost use Rattle.std.specs.Prelude.{◌≡◌, ◌<◌};
ghost use Rattle.rpf_plain.specs.RowKeys.{long_row, origin_of, row_of_key, short_row};

use crate::row_keys::{LongRow, RowKey, ShortRow};
use crate::rows::Row;
use urpf_base::{Addr, IfaceId, Origin, Prefix};

/// The weight of the upper 64 bits of an address of IPv6.
const HALF: u128 = 0x1_0000_0000_0000_0000;

/// The row as the key of its family.
pub fn row_key(row: &Row) -> RowKey
    ensures { row_of_key result ≡ row.now }
{
    let len = row.prefix.len();
    let iface = row.iface.number() as u8;
    let known = row.origin.is_some();
    let origin = row.origin.unwrap_or(0);
    match row.prefix.addr() {
        Addr::V4(number) => RowKey::Short(ShortRow {
            number,
            len,
            iface,
            known,
            origin,
        }),
        Addr::V6(number) => {
            let high = (number / HALF) as u64;
            let low = (number % HALF) as u64;
            RowKey::Long(LongRow {
                high,
                low,
                len,
                iface,
                known,
                origin,
            })
        }
    }
}

impl ShortRow {
    /// The row of this key.
    pub fn row(&self) -> Row
        ensures { result ≡ short_row self.now }
    {
        Row {
            prefix: Prefix::new(Addr::V4(self.number), self.len).unwrap(),
            iface: iface_of(self.iface),
            origin: origin_where(self.known, self.origin),
        }
    }
}

impl LongRow {
    /// The row of this key.
    pub fn row(&self) -> Row
        ensures { result ≡ long_row self.now }
    {
        let number = u128::from(self.high) * HALF + u128::from(self.low);
        Row {
            prefix: Prefix::new(Addr::V6(number), self.len).unwrap(),
            iface: iface_of(self.iface),
            origin: origin_where(self.known, self.origin),
        }
    }
}

/// The interface with this number.
fn iface_of(number: u8) -> IfaceId
    requires { number < 64 }
    ensures { result ≡ number }
{
    IfaceId::new(u16::from(number)).unwrap()
}

/// This origin where it is known, and none where it is not.
fn origin_where(known: bool, origin: u32) -> Origin
    ensures { result ≡ origin_of known origin }
{
    if known { Some(origin) } else { None }
}
