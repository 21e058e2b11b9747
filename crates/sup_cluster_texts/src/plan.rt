//! The plan that an input says.

ghost use Rattle.std.specs.Prelude.{◌≤◌, IfErr, IfOk, length};
ghost use Rattle.sup_plan.specs.Plans.{IsPlan};
ghost use Rattle.sup_cluster_lines.specs.Scripts.{asked_in};
ghost use Rattle.sup_cluster_texts.specs.Plans.{IsPlanOf, IsReadFault, SaysPlan};

use std::alloc::Global;
use sup_cluster_lines::{PlanScript, read_plan_script};
use sup_jobs::{Fault, LIMIT};
use sup_placing::fault_of;
use sup_plan::Plan;
use sup_replica::Config;

/// The plan that an input says, each of whose nodes has this setting. It can be run.
///
/// # Errors
///
/// `BadLine` with the number of the first bad line, from 1, or 0 where all lines are skipped; `OutOfMemory` where memory was refused.
pub fn read_plan(alloc: Global, config: Config, input: &[u8]) -> Result<Plan, Fault>
    requires { length input.now ≤ LIMIT }
    ensures says { IfOk result (SaysPlan config input.now) }
    ensures runs { IfOk result IsPlan }
    ensures fault { IfErr result (IsReadFault input.now) }
{
    match read_plan_script(alloc, input) {
        Ok(script) => Ok(plan_of(config, script)),
        Err(fault) => Err(fault_of(fault)),
    }
}

/// The plan of a script, each of whose nodes has this setting.
pub fn plan_of(config: Config, script: PlanScript) -> Plan
    ensures { IsPlanOf config (script.nodes.items, asked_in script) result }
{
    let PlanScript {
        nodes,
        links,
        commands,
    } = script;
    Plan {
        config,
        nodes,
        commands,
        scripts: links,
    }
}
