//! The faults that end a cluster.

ghost use Rattle.std.specs.Prelude.{◌≡◌, ◌≢◌};
ghost use Rattle.sup_cluster_texts.specs.Faults.{of_certify, of_run, status_of};
ghost use Rattle.sup_posts.specs.declared.fault.RunFault.TheVariants.{BadPlan};

use std::alloc::AllocError;
use sup_certify::CertifyFault;
use sup_jobs::{DeviceFault, Fault};
use sup_posts::RunFault;
use sup_specs::NodeName;
use thiserror::Error;

/// Why a cluster ended before its time.
#[derive(Clone, Copy, Debug, PartialEq, Eq, Error)]
pub enum ClusterFault {
    /// A fault of any job: the input is bad, the device failed or memory was refused. A thread that can't be made counts as memory.
    #[error("{0}")]
    Job(Fault),
    /// A node's history came to its bound.
    #[error("history full")]
    HistoryFull,
    /// The other end of a link was gone.
    #[error("link closed")]
    LinkClosed,
    /// What the threads did is no run: no node can go on.
    #[error("not certified stuck")]
    Stuck,
    /// What the threads did is no run: the world answers this node otherwise at this place, counted from 1.
    #[error("not certified differs {node} {place}")]
    Differs { node: NodeName, place: u64 },
}

impl From<AllocError> for ClusterFault {
    ghost use Rattle.sup_cluster_texts.specs.declared.fault.ClusterFault.TheVariants.{Job};
    ghost use Rattle.sup_jobs.specs.declared.fault.Fault.TheVariants.{OutOfMemory};

    ghost from_gives = { λ _ f. f ≡ Job OutOfMemory };

    fn from(_error: AllocError) -> ClusterFault {
        ClusterFault::Job(Fault::OutOfMemory)
    }
}

impl From<DeviceFault> for ClusterFault {
    ghost use Rattle.sup_cluster_texts.specs.declared.fault.ClusterFault.TheVariants.{Job};
    ghost use Rattle.sup_jobs.specs.declared.fault.Fault.TheVariants.{Device};

    ghost from_gives = { λ _ f. f ≡ Job Device };

    fn from(_error: DeviceFault) -> ClusterFault {
        ClusterFault::Job(Fault::Device)
    }
}

impl ClusterFault {
    /// The exit status: that of the job's fault; 3 where a history is full or a link closed; 4 where what the threads did is no run.
    pub fn status(&self) -> u8
        ensures { result ≡ status_of self.now }
    {
        match self {
            ClusterFault::Job(fault) => fault.status(),
            ClusterFault::HistoryFull | ClusterFault::LinkClosed => 3,
            ClusterFault::Stuck | ClusterFault::Differs { .. } => 4,
        }
    }
}

/// The fault that ends a cluster whose threads gave no histories, of a plan that can be run.
pub fn of_run(fault: RunFault) -> ClusterFault
    requires { fault ≢ BadPlan }
    ensures { result ≡ of_run fault }
{
    match fault {
        RunFault::BadPlan => unreachable!(),
        RunFault::HistoryFull => ClusterFault::HistoryFull,
        RunFault::LinkClosed => ClusterFault::LinkClosed,
        RunFault::OutOfMemory => ClusterFault::Job(Fault::OutOfMemory),
    }
}

/// The fault that ends a cluster whose histories aren't certified.
pub fn of_certify(fault: CertifyFault) -> ClusterFault
    ensures { result ≡ of_certify fault }
{
    match fault {
        CertifyFault::Stuck => ClusterFault::Stuck,
        CertifyFault::Differs { node, place } => ClusterFault::Differs { node, place },
        CertifyFault::OutOfMemory => ClusterFault::Job(Fault::OutOfMemory),
    }
}
