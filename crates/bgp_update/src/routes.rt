//! What the attributes of an UPDATE say of its routes: attributes come in, and whether each route
//! has those that it has to have (RFC 4271, section 5; RFC 4760, section 3), and the origin of all
//! routes go out.
ghost use Rattle.std.specs.Prelude.{◌≡◌, ◌↔◌, Bool, IsTrue};
ghost use Rattle.as_path.specs.declared.widths.Width.{Width};
ghost use Rattle.bgp_attr.specs.Slots.{Values};
ghost use Rattle.bgp_attr.specs.Told.{TellsValues};
ghost use Rattle.bgp_update.specs.Update.{HasMandatory, route_origin};

use as_path::origin_of;
use bgp_attr::Attrs;
use urpf_base::Origin;

/// Whether ORIGIN and AS_PATH are there, if a route is announced, and NEXT_HOP, if one is in the
/// NLRI. A next hop of IPv6 stands in MP_REACH_NLRI itself.
pub fn has_mandatory(attrs: &Attrs, nlri: &[u8]) -> bool
    ensures { (width : Width) (v6 : Bool) (held : Values) → TellsValues width v6 held attrs.now
        → (IsTrue result ↔ HasMandatory v6 nlri.now held) }
{
    if !nlri.is_empty() && !attrs.has_next_hop {
        return false;
    }
    if nlri.is_empty() && attrs.reach.is_empty() {
        return true;
    }
    attrs.has_origin && attrs.path.is_some()
}

/// The origin of the routes. None where AS_PATH is missing.
pub fn origin_in(attrs: &Attrs) -> Origin
    ensures { result ≡ route_origin attrs.now.path attrs.now.as4 attrs.now.aggregators }
{
    let Some(path) = &attrs.path else {
        return None;
    };
    origin_of(path, attrs.as4.as_ref(), attrs.aggregators)
}
