//! What `mend` writes for configurations: three lines for each, its name, the configuration, and what is written.

use mcv_mend::{MendFault, Mending, run_mend};
use std::process::Abort;

/// `same` is the configuration as it is; `limit` and `fault` say why nothing is written.
const ROWS: &str = "\
root
{\"pools\":{\"A\":{\"servers\":[\"a:11211\"]},\"B\":{\"servers\":[\"b:11211\"]}},\"route\":{\"type\":\"WarmUpRoute\",\"cold\":\"PoolRoute|A\",\"warm\":\"PoolRoute|B\"}}
{\"pools\":{\"A\":{\"servers\":[\"a:11211\"]},\"B\":{\"servers\":[\"b:11211\"]}},\"route\":{\"type\": \"OperationSelectorRoute\", \"operation_policies\": {\"delete\": {\"type\": \"AllSyncRoute\", \"children\": [\"PoolRoute|A\", \"PoolRoute|B\"]}}, \"default_policy\": {\"type\":\"WarmUpRoute\",\"cold\":\"PoolRoute|A\",\"warm\":\"PoolRoute|B\"}}}
covered, comments
{ \"pools\":{\"A\":{\"servers\":[\"a:11211\"]},\"B\":{\"servers\":[\"b:11211\"]}}, /* x */ \"route\" : {\"type\":\"OperationSelectorRoute\",\"operation_policies\":{\"delete\":{\"type\":\"AllSyncRoute\",\"children\":[\"PoolRoute|A\",\"PoolRoute|B\"]}},\"default_policy\":{\"type\":\"WarmUpRoute\",\"cold\":\"PoolRoute|A\",\"warm\":\"PoolRoute|B\"}} } // y
same
own policy wrapped
{\"pools\":{\"A\":{\"servers\":[\"a:11211\"]},\"B\":{\"servers\":[\"b:11211\"]}},\"route\":{\"type\":\"OperationSelectorRoute\",\"operation_policies\":{\"delete\":{\"type\":\"FailoverRoute\",\"children\":[\"PoolRoute|A\",\"PoolRoute|B\"]}},\"default_policy\":{\"type\":\"FailoverRoute\",\"children\":[\"PoolRoute|A\",\"PoolRoute|B\"]}}}
{\"pools\":{\"A\":{\"servers\":[\"a:11211\"]},\"B\":{\"servers\":[\"b:11211\"]}},\"route\":{\"type\":\"OperationSelectorRoute\",\"operation_policies\":{\"delete\":{\"type\": \"AllSyncRoute\", \"children\": [{\"type\":\"FailoverRoute\",\"children\":[\"PoolRoute|A\",\"PoolRoute|B\"]}, \"PoolRoute|B\"]}},\"default_policy\":{\"type\":\"FailoverRoute\",\"children\":[\"PoolRoute|A\",\"PoolRoute|B\"]}}}
incr by another server
{\"pools\":{\"A\":{\"servers\":[\"a:11211\"]},\"B\":{\"servers\":[\"b:11211\"]}},\"route\":{\"type\":\"OperationSelectorRoute\",\"operation_policies\":{\"delete\":\"PoolRoute|A\",\"incr\":\"PoolRoute|B\"},\"default_policy\":\"PoolRoute|A\"}}
{\"pools\":{\"A\":{\"servers\":[\"a:11211\"]},\"B\":{\"servers\":[\"b:11211\"]}},\"route\":{\"type\":\"OperationSelectorRoute\",\"operation_policies\":{\"delete\":{\"type\": \"AllSyncRoute\", \"children\": [\"PoolRoute|A\", \"PoolRoute|B\"]},\"incr\":\"PoolRoute|B\"},\"default_policy\":\"PoolRoute|A\"}}
AllSync longer
{\"pools\":{\"A\":{\"servers\":[\"a:11211\"]},\"B\":{\"servers\":[\"b:11211\"]}},\"route\":{\"type\":\"OperationSelectorRoute\",\"operation_policies\":{\"delete\":{\"type\":\"AllSyncRoute\",\"children\":[\"PoolRoute|A\"]}},\"default_policy\":{\"type\":\"FailoverRoute\",\"children\":[\"PoolRoute|A\",\"PoolRoute|B\"]}}}
{\"pools\":{\"A\":{\"servers\":[\"a:11211\"]},\"B\":{\"servers\":[\"b:11211\"]}},\"route\":{\"type\":\"OperationSelectorRoute\",\"operation_policies\":{\"delete\":{\"type\":\"AllSyncRoute\",\"children\":[\"PoolRoute|A\", \"PoolRoute|B\"]}},\"default_policy\":{\"type\":\"FailoverRoute\",\"children\":[\"PoolRoute|A\",\"PoolRoute|B\"]}}}
AllAsync longer
{\"pools\":{\"A\":{\"servers\":[\"a:11211\"]},\"B\":{\"servers\":[\"b:11211\"]}},\"route\":{\"type\":\"OperationSelectorRoute\",\"operation_policies\":{\"delete\":{\"type\":\"AllAsyncRoute\",\"children\":[\"PoolRoute|A\"]}},\"default_policy\":{\"type\":\"FailoverRoute\",\"children\":[\"PoolRoute|A\",\"PoolRoute|B\"]}}}
{\"pools\":{\"A\":{\"servers\":[\"a:11211\"]},\"B\":{\"servers\":[\"b:11211\"]}},\"route\":{\"type\":\"OperationSelectorRoute\",\"operation_policies\":{\"delete\":{\"type\":\"AllAsyncRoute\",\"children\":[\"PoolRoute|A\", \"PoolRoute|B\"]}},\"default_policy\":{\"type\":\"FailoverRoute\",\"children\":[\"PoolRoute|A\",\"PoolRoute|B\"]}}}
AllSync short
{\"pools\":{\"A\":{\"servers\":[\"a:11211\"]},\"B\":{\"servers\":[\"b:11211\"]}},\"route\":{\"type\":\"OperationSelectorRoute\",\"operation_policies\":{\"delete\":\"AllSyncRoute|Pool|A\"},\"default_policy\":{\"type\":\"FailoverRoute\",\"children\":[\"PoolRoute|A\",\"PoolRoute|B\"]}}}
{\"pools\":{\"A\":{\"servers\":[\"a:11211\"]},\"B\":{\"servers\":[\"b:11211\"]}},\"route\":{\"type\":\"OperationSelectorRoute\",\"operation_policies\":{\"delete\":{\"type\": \"AllSyncRoute\", \"children\": [\"AllSyncRoute|Pool|A\", \"PoolRoute|B\"]}},\"default_policy\":{\"type\":\"FailoverRoute\",\"children\":[\"PoolRoute|A\",\"PoolRoute|B\"]}}}
new policy
{\"pools\":{\"A\":{\"servers\":[\"a:11211\"]},\"B\":{\"servers\":[\"b:11211\"]}},\"route\":{\"type\":\"OperationSelectorRoute\",\"operation_policies\":{\"get\":\"PoolRoute|B\"},\"default_policy\":\"PoolRoute|A\"}}
{\"pools\":{\"A\":{\"servers\":[\"a:11211\"]},\"B\":{\"servers\":[\"b:11211\"]}},\"route\":{\"type\":\"OperationSelectorRoute\",\"operation_policies\":{\"delete\": {\"type\": \"AllSyncRoute\", \"children\": [\"PoolRoute|A\", \"PoolRoute|B\"]}, \"get\":\"PoolRoute|B\"},\"default_policy\":\"PoolRoute|A\"}}
no table
{\"pools\":{\"A\":{\"servers\":[\"a:11211\"]},\"B\":{\"servers\":[\"b:11211\"]}},\"route\":{\"type\":\"OperationSelectorRoute\",\"default_policy\":{\"type\":\"WarmUpRoute\",\"cold\":\"PoolRoute|A\",\"warm\":\"PoolRoute|B\"}}}
{\"pools\":{\"A\":{\"servers\":[\"a:11211\"]},\"B\":{\"servers\":[\"b:11211\"]}},\"route\":{\"type\":\"OperationSelectorRoute\", \"operation_policies\": {\"delete\": {\"type\": \"AllSyncRoute\", \"children\": [\"PoolRoute|A\", \"PoolRoute|B\"]}},\"default_policy\":{\"type\":\"WarmUpRoute\",\"cold\":\"PoolRoute|A\",\"warm\":\"PoolRoute|B\"}}}
one class
{\"pools\":{\"A\":{\"servers\":[\"a:11211\"]},\"B\":{\"servers\":[\"b:11211\"]}},\"route\":{\"type\":\"PrefixSelectorRoute\",\"policies\":{\"a\":{\"type\":\"WarmUpRoute\",\"cold\":\"PoolRoute|A\",\"warm\":\"PoolRoute|B\"}},\"wildcard\":\"PoolRoute|A\"}}
{\"pools\":{\"A\":{\"servers\":[\"a:11211\"]},\"B\":{\"servers\":[\"b:11211\"]}},\"route\":{\"type\":\"PrefixSelectorRoute\",\"policies\":{\"a\":{\"type\": \"OperationSelectorRoute\", \"operation_policies\": {\"delete\": {\"type\": \"AllSyncRoute\", \"children\": [\"PoolRoute|A\", \"PoolRoute|B\"]}}, \"default_policy\": {\"type\":\"WarmUpRoute\",\"cold\":\"PoolRoute|A\",\"warm\":\"PoolRoute|B\"}}},\"wildcard\":\"PoolRoute|A\"}}
by class
{\"pools\":{\"A\":{\"servers\":[\"a:11211\"]},\"B\":{\"servers\":[\"b:11211\"]}},\"route\":{\"type\":\"OperationSelectorRoute\",\"operation_policies\":{\"get\":{\"type\":\"PrefixSelectorRoute\",\"policies\":{\"a\":\"PoolRoute|B\"},\"wildcard\":\"PoolRoute|A\"}},\"default_policy\":\"PoolRoute|A\"}}
{\"pools\":{\"A\":{\"servers\":[\"a:11211\"]},\"B\":{\"servers\":[\"b:11211\"]}},\"route\":{\"type\":\"OperationSelectorRoute\",\"operation_policies\":{\"delete\": {\"type\": \"PrefixSelectorRoute\", \"policies\": {\"a\": {\"type\": \"AllSyncRoute\", \"children\": [\"PoolRoute|A\", \"PoolRoute|B\"]}}, \"wildcard\": \"PoolRoute|A\"}, \"get\":{\"type\":\"PrefixSelectorRoute\",\"policies\":{\"a\":\"PoolRoute|B\"},\"wildcard\":\"PoolRoute|A\"}},\"default_policy\":\"PoolRoute|A\"}}
salt, shadow
{\"pools\":{\"A\":{\"servers\":[\"a:11211\",\"b:11211\"]},\"T\":{\"servers\":[\"t:11211\"]}},\"route\":{\"type\":\"OperationSelectorRoute\",\"operation_policies\":{\"delete\":\"PoolRoute|A\"},\"default_policy\":{\"type\":\"PoolRoute\",\"pool\":\"A\",\"hash\":{\"salt\":\"x\"},\"shadows\":[{\"target\":\"PoolRoute|T\",\"index_range\":[0,0]}]}}}
{\"pools\":{\"A\":{\"servers\":[\"a:11211\",\"b:11211\"]},\"T\":{\"servers\":[\"t:11211\"]}},\"route\":{\"type\":\"OperationSelectorRoute\",\"operation_policies\":{\"delete\":{\"type\": \"AllSyncRoute\", \"children\": [\"PoolRoute|A\", {\"type\": \"PoolRoute\", \"pool\": \"A\", \"hash\": {\"salt\":\"x\"}}]}},\"default_policy\":{\"type\":\"PoolRoute\",\"pool\":\"A\",\"hash\":{\"salt\":\"x\"},\"shadows\":[{\"target\":\"PoolRoute|T\",\"index_range\":[0,0]}]}}}
servers
{\"pools\":{\"C\":{\"servers\":[\"a:11211\",\"b:11211\",\"c:11211\"]}},\"route\":\"FailoverRoute|Pool|C\"}
{\"pools\":{\"C\":{\"servers\":[\"a:11211\",\"b:11211\",\"c:11211\"]}},\"route\":{\"type\": \"OperationSelectorRoute\", \"operation_policies\": {\"delete\": {\"type\": \"AllSyncRoute\", \"children\": [\"FailoverRoute|Pool|C\", {\"type\": \"PoolRoute\", \"pool\": {\"servers\": [\"b:11211\"]}}, {\"type\": \"PoolRoute\", \"pool\": {\"servers\": [\"c:11211\"]}}]}}, \"default_policy\": \"FailoverRoute|Pool|C\"}}
two routes
{\"pools\":{\"A\":{\"servers\":[\"a:11211\"]},\"B\":{\"servers\":[\"b:11211\"]}},\"routes\":[{\"aliases\":[\"/a/b/\"],\"route\":\"PoolRoute|A\"},{\"aliases\":[\"/././\"],\"route\":{\"type\":\"WarmUpRoute\",\"cold\":\"PoolRoute|A\",\"warm\":\"PoolRoute|B\"}}]}
{\"pools\":{\"A\":{\"servers\":[\"a:11211\"]},\"B\":{\"servers\":[\"b:11211\"]}},\"routes\":[{\"aliases\":[\"/a/b/\"],\"route\":\"PoolRoute|A\"},{\"aliases\":[\"/././\"],\"route\":{\"type\": \"OperationSelectorRoute\", \"operation_policies\": {\"delete\": {\"type\": \"AllSyncRoute\", \"children\": [\"PoolRoute|A\", \"PoolRoute|B\"]}}, \"default_policy\": {\"type\":\"WarmUpRoute\",\"cold\":\"PoolRoute|A\",\"warm\":\"PoolRoute|B\"}}}]}
era
{\"pools\":{\"A\":{\"servers\":[\"a:11211\"]},\"B\":{\"servers\":[\"b:11211\"]}},\"route\":{\"type\":\"OperationSelectorRoute\",\"operation_policies\":{\"get\":{\"type\":\"MigrateRoute\",\"from\":\"PoolRoute|A\",\"to\":\"PoolRoute|B\",\"start_time\":1000}},\"default_policy\":\"PoolRoute|A\"}}
{\"pools\":{\"A\":{\"servers\":[\"a:11211\"]},\"B\":{\"servers\":[\"b:11211\"]}},\"route\":{\"type\":\"OperationSelectorRoute\",\"operation_policies\":{\"delete\": {\"type\": \"AllSyncRoute\", \"children\": [\"PoolRoute|A\", \"PoolRoute|B\"]}, \"get\":{\"type\":\"MigrateRoute\",\"from\":\"PoolRoute|A\",\"to\":\"PoolRoute|B\",\"start_time\":1000}},\"default_policy\":\"PoolRoute|A\"}}
left out
{\"pools\":{\"X\":{\"servers\":[\"a:1\",\"b:1\"]},\"Y\":{\"servers\":[\"a:1\",\"c:1\"]},\"Z\":{\"servers\":[\"d:1\",\"b:1\"]}},\"route\":{\"type\":\"OperationSelectorRoute\",\"operation_policies\":{\"delete\":\"NullRoute\"},\"default_policy\":{\"type\":\"FailoverRoute\",\"children\":[\"PoolRoute|X\",\"PoolRoute|Y\",\"PoolRoute|Z\"]}}}
{\"pools\":{\"X\":{\"servers\":[\"a:1\",\"b:1\"]},\"Y\":{\"servers\":[\"a:1\",\"c:1\"]},\"Z\":{\"servers\":[\"d:1\",\"b:1\"]}},\"route\":{\"type\":\"OperationSelectorRoute\",\"operation_policies\":{\"delete\":{\"type\": \"AllSyncRoute\", \"children\": [\"NullRoute\", \"PoolRoute|Y\", \"PoolRoute|Z\"]}},\"default_policy\":{\"type\":\"FailoverRoute\",\"children\":[\"PoolRoute|X\",\"PoolRoute|Y\",\"PoolRoute|Z\"]}}}
too deep
{\"pools\":{\"D\":{\"servers\":[\"a:11211\",\"b:11211\"]}},\"route\":\"AllSyncRoute|AllSyncRoute|AllSyncRoute|AllSyncRoute|AllSyncRoute|AllSyncRoute|AllSyncRoute|AllSyncRoute|AllSyncRoute|AllSyncRoute|AllSyncRoute|AllSyncRoute|AllSyncRoute|AllSyncRoute|AllSyncRoute|AllSyncRoute|AllSyncRoute|AllSyncRoute|AllSyncRoute|AllSyncRoute|AllSyncRoute|AllSyncRoute|AllSyncRoute|AllSyncRoute|AllSyncRoute|AllSyncRoute|AllSyncRoute|AllSyncRoute|AllSyncRoute|FailoverRoute|Pool|D\"}
limit 7 at /route/operation_policies/delete/children/0
refused
{\"route\":\"PoolRoute|Z\"}
fault configuration 5 at /route
never
{\"pools\":{\"A\":{\"servers\":[\"a:11211\"]},\"B\":{\"servers\":[\"b:11211\"]}},\"route\":{\"type\":\"OperationSelectorRoute\",\"operation_policies\":{\"delete\":\"ErrorRoute\"},\"default_policy\":\"PoolRoute|A\"}}
same";

/// What is written of a configuration, or why nothing is.
fn written(rt: &(impl AllocGlobal + Abort), configuration: &str) -> String {
    let mut output = Vec::new(rt.alloc());
    let mending = run_mend(rt.alloc(), &mut configuration.as_bytes(), &mut output);
    match mending {
        Ok(Mending::Unchanged) => {
            assert!(rt;
                output.as_slice() == configuration.as_bytes(),
                "a covered one changed"
            );
            String::from_str(rt.alloc(), "same").expect(rt, "memory")
        }
        Ok(Mending::Mended) => String::from_utf8(output).expect(rt, "a text"),
        Err(fault) => {
            assert!(rt; output.is_empty(), "written beside a fault");
            fault_text(rt, &fault)
        }
    }
}

fn fault_text(rt: &(impl AllocGlobal + Abort), fault: &MendFault) -> String {
    match fault {
        MendFault::Run(fault) => format!(in rt.alloc(); "fault {fault}").expect(rt, "memory"),
        MendFault::Limit(fault) => {
            let number = fault.number();
            let path = fault.path();
            format!(in rt.alloc(); "limit {number} at {path}").expect(rt, "memory")
        }
        MendFault::GaveUp => String::from_str(rt.alloc(), "gave up").expect(rt, "memory"),
    }
}

#[test]
fn configurations_are_mended(rt: HostRuntime) {
    let mut lines = ROWS.lines();
    for _ in 0..1000 {
        let (Some(name), Some(configuration), Some(wanted)) = (
            lines.next(),
            lines.next(),
            lines.next(),
        ) else {
            return;
        };
        let found = written(&rt, configuration);
        assert!(rt; found.as_str() == wanted, "{name}: {found}");
    }
}
