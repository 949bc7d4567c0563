//! Audits of histories: whether sites that share nothing but messages could have recorded them.
//! Tests: rb_tests_runs, auditor.rt; tests/cases, audits.cases.
#![tactic(auto)]

mod audit_fault;
mod auditing;
mod auditor;
mod certificate;
mod checking;
mod compact_operations;
mod kept_at;
mod listing;
mod message;
mod message_list;
mod notes;
mod posted;
mod replay;
mod sent_messages;
mod step;
mod store;
mod taking;
mod whole;
mod wrong;

pub use audit_fault::AuditFault;
pub use auditing::audit;
pub use auditor::Auditor;
pub use certificate::Certificate;
pub use checking::check::check;
pub use checking::sites::close_all;
