//! Fields, and what children and members are.
ghost use Rattle.std.specs.Prelude.{◌≡◌, OnOk, codes};
ghost use Rattle.serde_json.specs.Data.{string};
ghost use Rattle.sup_specs.specs.Texts.{IsText};
ghost use Rattle.sup_specs.specs.declared.texts.Alphabet.TheVariants.{Visible};
ghost use Rattle.sup_wire.specs.Forms.{count_value, version_value, restart_value, shutdown_value, spec_value, status_value, info_value, IsShutdown, IsSpec};
ghost use Rattle.sup_wire.specs.declared.version.Version.TheVariants.{Two};
ghost use Rattle.sup_wire.specs.Writing.{AddsTokens, tokens_of, field_tokens};

use json::Writer;
use std::alloc::AllocError;
use sup_specs::{ChildSpec, MemberInfo, Restart, Shutdown, Status};

// A field with a text.
pub(crate) fn text_field(out: &mut Writer, name: &str, text: &str) -> Result<(), AllocError>
    ensures { OnOk result (AddsTokens out.old out.new (field_tokens name.now (string text.now))) }
{
    out.key(name)?;
    out.string(text)
}

// A field with a number.
pub(crate) fn number_field(out: &mut Writer, name: &str, n: u64) -> Result<(), AllocError>
    ensures { OnOk result (AddsTokens out.old out.new (field_tokens name.now (count_value n))) }
{
    out.key(name)?;
    out.u64(n)
}

fn write_restart(out: &mut Writer, restart: Restart) -> Result<(), AllocError>
    ensures { OnOk result (AddsTokens out.old out.new (tokens_of (restart_value restart))) }
{
    out.string(match restart {
        Restart::Permanent => "permanent",
        Restart::Transient => "transient",
        Restart::Temporary => "temporary",
    })
}

fn write_shutdown(out: &mut Writer, shutdown: Shutdown) -> Result<(), AllocError>
    ensures formed { IsShutdown shutdown }
    ensures adds { OnOk result (AddsTokens out.old out.new (tokens_of (shutdown_value shutdown))) }
{
    match shutdown {
        Shutdown::Brutal => out.string("brutal_kill"),
        Shutdown::Millis(millis) => out.u64(u64::from(millis)),
        Shutdown::Infinity => out.string("infinity"),
    }
}

fn restart_field(out: &mut Writer, restart: Restart) -> Result<(), AllocError>
    ensures { OnOk result (AddsTokens out.old out.new (field_tokens (codes "restart") (restart_value restart))) }
{
    out.key("restart")?;
    write_restart(out, restart)
}

#[tactic(auto, using(crate::proofs::Adding::adds_field))]
fn shutdown_field(out: &mut Writer, shutdown: Shutdown) -> Result<(), AllocError>
    ensures formed { OnOk result (IsShutdown shutdown) }
    ensures adds { OnOk result (AddsTokens out.old out.new (field_tokens (codes "shutdown") (shutdown_value shutdown))) }
{
    out.key("shutdown")?;
    write_shutdown(out, shutdown)
}

// The field of the version.
pub(crate) fn version_field(out: &mut Writer) -> Result<(), AllocError>
    ensures { OnOk result (AddsTokens out.old out.new (field_tokens (codes "v") (version_value Two))) }
{
    number_field(out, "v", 2)
}

// What a child is.
pub(crate) fn write_spec(out: &mut Writer, spec: &ChildSpec) -> Result<(), AllocError>
    ensures formed { OnOk result (IsSpec spec.now) }
    ensures adds { OnOk result (AddsTokens out.old out.new (tokens_of (spec_value spec.now))) }
{
    out.begin_object()?;
    text_field(out, "arg", spec.arg.as_str())?;
    text_field(out, "kind", spec.kind.as_str())?;
    restart_field(out, spec.restart)?;
    shutdown_field(out, spec.shutdown)?;
    out.end_object()
}

fn write_status(out: &mut Writer, status: Status) -> Result<(), AllocError>
    ensures { OnOk result (AddsTokens out.old out.new (tokens_of (status_value status))) }
{
    out.string(match status {
        Status::Open => "open",
        Status::Draining => "draining",
    })
}

fn status_field(out: &mut Writer, status: Status) -> Result<(), AllocError>
    ensures { OnOk result (AddsTokens out.old out.new (field_tokens (codes "status") (status_value status))) }
{
    out.key("status")?;
    write_status(out, status)
}

// What is said of a member.
pub(crate) fn write_info(out: &mut Writer, info: &MemberInfo) -> Result<(), AllocError>
    ensures formed { OnOk result (IsText Visible 0 1024 info.now.label) }
    ensures adds { OnOk result (AddsTokens out.old out.new (tokens_of (info_value Two info.now))) }
{
    out.begin_object()?;
    text_field(out, "label", info.label.as_str())?;
    status_field(out, info.status)?;
    out.end_object()
}
