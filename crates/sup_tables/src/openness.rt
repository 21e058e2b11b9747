//! Whether children may be placed on a member.
ghost use Rattle.std.specs.Prelude.{◌≡◌};
ghost use Rattle.sup_tables.specs.Readers.{is_open};

use sup_indexed::Property;
use sup_specs::{MemberInfo, Status};

// What members have that are open.
pub(crate) struct Openness;

impl Property<MemberInfo> for Openness {
    ghost use Rattle.sup_tables.specs.Readers.{is_open};

    ghost is_held = { λ _ info. is_open info.status };

    fn holds(&self, info: &MemberInfo) -> bool {
        is_open(info)
    }
}

// Whether the member is open.
pub(crate) fn is_open(info: &MemberInfo) -> bool
    ensures { result ≡ is_open info.now.status }
{
    match info.status {
        Status::Open => true,
        Status::Draining => false,
    }
}
