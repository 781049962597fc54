//! What docs/CONFIGURATION.md says, in its order. Limits, and what a configuration holds, are in `contents`.
//!
//! A row is what becomes of a text and the text: the first route's handle with the number of its children, policies or
//! shadows, or the number and path of a fault. In the tables `'` means a double quote and `^` a LF.

use crate::built::{check_text, push};
use mcv_config::{ConfigFault, ConfigParts, Many, NamedRoute, Pool, ReadFault, read_config};
use std::process::Abort;

/// Adds what a piece of a row means.
fn push_meant(rt: &impl Abort, text: &mut String, piece: &str) {
    for sign in piece.chars() {
        let meant = match sign {
            '\'' => '"',
            '^' => '\n',
            other => other,
        };
        text.push(meant).expect(rt, "memory");
    }
}

/// The text of a row between others.
fn whole(rt: &(impl AllocGlobal + Abort), before: &[&str], row: &str, after: &str) -> String {
    let mut text = String::new(rt.alloc());
    for piece in before {
        push_meant(rt, &mut text, piece);
    }
    push_meant(rt, &mut text, row);
    push_meant(rt, &mut text, after);
    text
}

/// A handle's name, and how many children, policies or shadows it has.
fn head(route: &NamedRoute) -> (&'static str, usize) {
    match route {
        NamedRoute::Pool { shadows, .. } => ("pool", shadows.len()),
        NamedRoute::Server { .. } => ("server", 0),
        NamedRoute::Null => ("null", 0),
        NamedRoute::Error => ("error", 0),
        NamedRoute::Many(Many::AllSync, children) => ("all_sync", children.len()),
        NamedRoute::Many(Many::AllInitial, children) => ("all_initial", children.len()),
        NamedRoute::Many(Many::AllAsync, children) => ("all_async", children.len()),
        NamedRoute::Many(Many::Failover, children) => ("failover", children.len()),
        NamedRoute::Many(Many::MissFailover, children) => ("miss_failover", children.len()),
        NamedRoute::WarmUp { .. } => ("warm_up", 2),
        NamedRoute::Migrate { .. } => ("migrate", 2),
        NamedRoute::PrefixSelector { policies, .. } => ("prefix_selector", policies.len()),
        NamedRoute::OperationSelector { policies, .. } => ("operation_selector", policies.len()),
    }
}

/// The first route.
fn read_as(rt: &(impl AllocGlobal + Abort), parts: &ConfigParts) -> String {
    let entry = parts.entries.as_slice().first().expect(rt, "a route");
    let (name, count) = head(&entry.route);
    format!(in rt.alloc(); "{name} {count}").expect(rt, "memory")
}

fn refused_as(rt: &(impl AllocGlobal + Abort), fault: &ConfigFault) -> String {
    let number = fault.number();
    let path = fault.path();
    format!(in rt.alloc(); "{number} at {path}").expect(rt, "memory")
}

/// What becomes of a text.
fn outcome(rt: &(impl AllocGlobal + Abort), text: &str) -> String {
    match read_config(rt.alloc(), text.as_bytes()) {
        Ok(config) => read_as(rt, config.parts()),
        Err(ReadFault::Config(fault)) => refused_as(rt, &fault),
        Err(ReadFault::Memory) => panic!(rt; "out of memory"),
    }
}

/// A row's text between others becomes what is wanted.
fn check_between(
    rt: &(impl AllocGlobal + Abort),
    before: &[&str],
    row: &str,
    after: &str,
    wanted: &str,
) {
    let text = whole(rt, before, row, after);
    check_text(rt, row, outcome(rt, &text).as_str(), wanted);
}

/// The texts of rows, between others, become what the rows say.
fn check_rows(rt: &(impl AllocGlobal + Abort), rows: &str, before: &[&str], after: &str) {
    for row in rows.lines() {
        let (wanted, text) = row.split_once(" = ").expect(rt, "a row");
        check_between(rt, before, text, after, wanted);
    }
}

const TEXTS: &str = "\
null 0 = {'pools':{},/* x */'route':'NullRoute'} // y
null 0 = {'route'/**/:/* // ' */'NullRoute'/*^*/}
null 0 = {// ' /* }^'route':'NullRoute'//}^}
1 at . = {'route':'NullRoute' /* x }
4 at /route = {'route':'Null/**/Route'}
1 at . = {'route':'NullRoute'} /*/
1 at . = {'route':'NullRoute'} /* /* */ */
1 at . = {'route':Null/**/Route}
4 at /route = {'route':'//'}
4 at /route = {'route':'/*'}
2 at /%2F%2F = {'//':1,'route':'NullRoute'}
1 at . = {
1 at . = {'route':'NullRoute'} {}
null 0 = {'route':'x','route':'NullRoute'}
4 at /route = {'route':'NullRoute','route':'x'}
2 at /a = {'b':1,'a':1,'route':'NullRoute'}";

const OBJECTS: &str = "\
3 at . = []
3 at . = {}
3 at . = {'pools':{}}
3 at . = {'route':'NullRoute','routes':[{'aliases':['/a/b/'],'route':'NullRoute'}]}
null 0 = {'route':'NullRoute'}
3 at /pools = {'pools':[],'route':'NullRoute'}
3 at /pools/A = {'pools':{'A':['a:1']},'route':'NullRoute'}
3 at /pools/A = {'pools':{'A':{}},'route':'NullRoute'}
3 at /pools/A = {'pools':{'A':'a:1'},'route':'NullRoute'}
3 at /pools/A = {'pools':{'A':''},'route':'NullRoute'}
3 at /pools/A = {'pools':{'A':7},'route':'NullRoute'}
3 at /pools/A/servers = {'pools':{'A':{'servers':'a:1'}},'route':'NullRoute'}
6 at /pools/A/servers = {'pools':{'A':{'servers':[]}},'route':'PoolRoute|A'}
3 at /pools/A/servers/1 = {'pools':{'A':{'servers':['a:1',2]}},'route':'NullRoute'}
pool 0 = {'pools':{'A':{'servers':['a:1'],'name':'B'}},'route':'PoolRoute|A'}
5 at /route = {'pools':{'A':{'servers':['a:1'],'name':'B'}},'route':'PoolRoute|B'}
pool 0 = {'pools':{'A':{'servers':['a:1'],'name':'@B'}},'route':'PoolRoute|A'}
3 at /pools/A/name = {'pools':{'A':{'servers':['a:1'],'name':7}},'route':'NullRoute'}
3 at /pools/A/name = {'pools':{'A':{'servers':['a:1'],'name':null}},'route':'NullRoute'}
2 at /pools/A/qos = {'pools':{'A':{'servers':['a:1'],'qos':1}},'route':'NullRoute'}
2 at /Route = {'Route':'NullRoute','route':'NullRoute'}";

#[test]
fn the_text(rt: HostRuntime) {
    check_rows(&rt, TEXTS, &[], "");
    check_rows(&rt, OBJECTS, &[], "");
}

/// Server texts of pool A.
const SERVERS: &str = "\
null 0 = a:11211
null 0 = a:1
null 0 = a:65535
null 0 = [::1]:11211
null 0 = 10.0.0.1:11211
8 at /pools/A/servers/0 = a
8 at /pools/A/servers/0 = a:
8 at /pools/A/servers/0 = :1
8 at /pools/A/servers/0 = a:0
8 at /pools/A/servers/0 = a:01
8 at /pools/A/servers/0 = a:65536
8 at /pools/A/servers/0 = a:100000
8 at /pools/A/servers/0 = a:x
8 at /pools/A/servers/0 = a:1:ascii
8 at /pools/A/servers/0 = a:b:1
8 at /pools/A/servers/0 = a b:1
8 at /pools/A/servers/0 = [::1:1
8 at /pools/A/servers/0 = ::1]:1";

#[test]
fn server_texts(rt: HostRuntime) {
    let before = ["{'pools':{'A':{'servers':['"];
    check_rows(&rt, SERVERS, &before, "']}},'route':'NullRoute'}");
}

const ENTRIES: &str = "\
null 0 = [{'aliases':['/a/b/'],'route':'NullRoute'}]
null 0 = [{'aliases':['/a/b/','/a/c/'],'route':'NullRoute'},{'aliases':['/././'],'route':'ErrorRoute'}]
3 at /routes = {}
6 at /routes = []
3 at /routes/0 = ['NullRoute']
3 at /routes/0 = [{'route':'NullRoute'}]
3 at /routes/0 = [{'aliases':['/a/b/']}]
2 at /routes/0/alias = [{'alias':1,'aliases':['/a/b/'],'route':'NullRoute'}]
3 at /routes/0/aliases = [{'aliases':'/a/b/','route':'NullRoute'}]
6 at /routes/0/aliases = [{'aliases':[],'route':'NullRoute'}]
3 at /routes/0/aliases/0 = [{'aliases':[1],'route':'NullRoute'}]
9 at /routes/0/aliases/1 = [{'aliases':['/a/b/','/a/b/'],'route':'NullRoute'}]
9 at /routes/1/aliases/0 = [{'aliases':['/a/b/'],'route':'NullRoute'},{'aliases':['/a/b/'],'route':'NullRoute'}]
4 at /routes/1/route = [{'aliases':['/a/b/'],'route':'NullRoute'},{'aliases':['/c/d/'],'route':'x'}]
5 at /routes/0/route/children/1 = [{'aliases':['/a/b/'],'route':{'type':'AllSyncRoute','children':['NullRoute','PoolRoute|A']}}]";

/// Texts of aliases.
const ALIASES: &str = "\
null 0 = /a/b/
null 0 = /././
null 0 = /aaaaaaaaaaaaaaaaaa/bbbbbbbbbbbbbbbbbbb/
7 at /routes/0/aliases/0 = /aaaaaaaaaaaaaaaaaaa/bbbbbbbbbbbbbbbbbbb/
3 at /routes/0/aliases/0 = a
3 at /routes/0/aliases/0 = /a/b
3 at /routes/0/aliases/0 = a/b/
3 at /routes/0/aliases/0 = /a/
3 at /routes/0/aliases/0 = //b/
3 at /routes/0/aliases/0 = /a//
3 at /routes/0/aliases/0 = /a/b/c/
3 at /routes/0/aliases/0 = /a b/c/
10 at /routes/0/aliases/0 = /*/*/
10 at /routes/0/aliases/0 = /a/*/
3 at /routes/0/aliases/0 = *
3 at /routes/0/aliases/0 = /*/
3 at /routes/0/aliases/0 = /a*
3 at /routes/0/aliases/0 = /a b/*/";

#[test]
fn routes_and_aliases(rt: HostRuntime) {
    check_rows(&rt, ENTRIES, &["{'routes':"], "}");
    let before = ["{'routes':[{'aliases':['"];
    check_rows(&rt, ALIASES, &before, "'],'route':'NullRoute'}]}");
}

/// Routes over pool A, of two servers, and pool B, of one.
const HANDLES: &str = "\
pool 0 = {'type':'PoolRoute','pool':'A'}
pool 0 = {'type':'PoolRoute','pool':{'servers':['d:1'],'name':'D'}}
5 at /route/pool = {'type':'PoolRoute','pool':'Z'}
3 at /route/pool = {'type':'PoolRoute','pool':7}
3 at /route = {'type':'PoolRoute'}
6 at /route/pool/servers = {'type':'PoolRoute','pool':{'servers':[]}}
8 at /route/pool/servers/0 = {'type':'PoolRoute','pool':{'servers':['d']}}
3 at /route/pool/name = {'type':'PoolRoute','pool':{'servers':['d:1'],'name':['D']}}
2 at /route/pool/hash = {'type':'PoolRoute','pool':{'servers':['d:1'],'hash':'Ch3'}}
null 0 = {'type':'NullRoute'}
error 0 = {'type':'ErrorRoute'}
all_sync 2 = {'type':'AllSyncRoute','children':['PoolRoute|A','PoolRoute|B']}
all_initial 2 = {'type':'AllInitialRoute','children':['PoolRoute|A','PoolRoute|B']}
all_async 2 = {'type':'AllAsyncRoute','children':['PoolRoute|A','PoolRoute|B']}
failover 2 = {'type':'FailoverRoute','children':['PoolRoute|A','PoolRoute|B']}
miss_failover 2 = {'type':'MissFailoverRoute','children':['PoolRoute|A','PoolRoute|B']}
all_sync 1 = {'type':'AllSyncRoute','children':'PoolRoute|A'}
all_sync 1 = {'type':'AllSyncRoute','children':{'type':'NullRoute'}}
all_sync 2 = {'type':'AllSyncRoute','children':'Pool|A'}
3 at /route = {'type':'FailoverRoute'}
3 at /route/children = {'type':'FailoverRoute','children':7}
6 at /route/children = {'type':'FailoverRoute','children':[]}
3 at /route/children/1 = {'type':'AllSyncRoute','children':['NullRoute',null]}
warm_up 2 = {'type':'WarmUpRoute','cold':'PoolRoute|A','warm':'PoolRoute|B','exptime':60}
warm_up 2 = {'type':'WarmUpRoute','cold':'PoolRoute|A','warm':'PoolRoute|B'}
3 at /route = {'type':'WarmUpRoute','cold':'PoolRoute|A'}
3 at /route = {'type':'WarmUpRoute','warm':'PoolRoute|A'}
4 at /route/warm = {'type':'WarmUpRoute','cold':'PoolRoute|A','warm':'x'}
3 at /route/exptime = {'type':'WarmUpRoute','cold':'PoolRoute|A','warm':'PoolRoute|B','exptime':-1}
7 at /route/exptime = {'type':'WarmUpRoute','cold':'PoolRoute|A','warm':'PoolRoute|B','exptime':4294967296}
warm_up 2 = {'type':'WarmUpRoute','cold':'PoolRoute|A','warm':'PoolRoute|B','exptime':4294967295}
migrate 2 = {'type':'MigrateRoute','from':'PoolRoute|A','to':'PoolRoute|B','start_time':1000,'interval':60}
migrate 2 = {'type':'MigrateRoute','from':'PoolRoute|A','to':'PoolRoute|B','start_time':0}
3 at /route = {'type':'MigrateRoute','from':'PoolRoute|A','to':'PoolRoute|B'}
3 at /route/start_time = {'type':'MigrateRoute','from':'PoolRoute|A','to':'PoolRoute|B','start_time':'1000'}
3 at /route/start_time = {'type':'MigrateRoute','from':'PoolRoute|A','to':'PoolRoute|B','start_time':1e3}
3 at /route/interval = {'type':'MigrateRoute','from':'PoolRoute|A','to':'PoolRoute|B','start_time':1,'interval':0.5}
7 at /route/interval = {'type':'MigrateRoute','from':'PoolRoute|A','to':'PoolRoute|B','start_time':1,'interval':4294967296}
4 at /route/from = {'type':'MigrateRoute','from':'x','to':'PoolRoute|B','start_time':1}
prefix_selector 0 = {'type':'PrefixSelectorRoute'}
prefix_selector 2 = {'type':'PrefixSelectorRoute','policies':{'a':'PoolRoute|A','ab':'NullRoute'},'wildcard':'PoolRoute|B'}
3 at /route/policies = {'type':'PrefixSelectorRoute','policies':['a']}
4 at /route/policies/a = {'type':'PrefixSelectorRoute','policies':{'b':'y','a':'x'}}
4 at /route/wildcard = {'type':'PrefixSelectorRoute','wildcard':'x'}
2 at /route/default_policy = {'type':'PrefixSelectorRoute','default_policy':'NullRoute'}
operation_selector 0 = {'type':'OperationSelectorRoute'}
operation_selector 2 = {'type':'OperationSelectorRoute','operation_policies':{'get':'PoolRoute|A','gets':'NullRoute'},'default_policy':'PoolRoute|B'}
3 at /route/operation_policies = {'type':'OperationSelectorRoute','operation_policies':[]}
4 at /route/default_policy = {'type':'OperationSelectorRoute','default_policy':'x'}
2 at /route/policies = {'type':'OperationSelectorRoute','policies':{}}
3 at /route = {}
3 at /route/type = {'type':7}
2 at /route/hash = {'type':'NullRoute','hash':'Ch3'}
3 at /route = 7
3 at /route = ['NullRoute']";

/// Hashes of a PoolRoute.
const HASHES: &str = "\
pool 0 = 'Ch3'
pool 0 = 'Crc32'
pool 0 = {}
pool 0 = {'hash_func':'Crc32','salt':'x'}
pool 0 = {'salt':''}
3 at /route/hash = 7
3 at /route/hash/hash_func = {'hash_func':1}
3 at /route/hash/salt = {'salt':[]}
2 at /route/hash/n = {'n':1}";

/// Shadows of a PoolRoute.
const SHADOWS: &str = "\
pool 0 = []
pool 1 = [{'target':'NullRoute','index_range':[0,0]}]
pool 2 = [{'target':'PoolRoute|A','index_range':[0,18446744073709551615]},{'target':'PoolRoute|B','index_range':[7,9]}]
3 at /route/shadows = {}
3 at /route/shadows/0 = [1]
3 at /route/shadows/0 = [{'target':'NullRoute'}]
3 at /route/shadows/0 = [{'index_range':[0,1]}]
3 at /route/shadows/0/index_range = [{'target':'NullRoute','index_range':[1,0]}]
3 at /route/shadows/0/index_range = [{'target':'NullRoute','index_range':[0]}]
3 at /route/shadows/0/index_range = [{'target':'NullRoute','index_range':[0,1,2]}]
3 at /route/shadows/0/index_range = [{'target':'NullRoute','index_range':0}]
3 at /route/shadows/0/index_range/1 = [{'target':'NullRoute','index_range':[0,-1]}]
4 at /route/shadows/1/target = [{'target':'NullRoute','index_range':[0,1]},{'target':'x','index_range':[0,1]}]
2 at /route/shadows/0/name = [{'target':'NullRoute','index_range':[0,1],'name':'s'}]";

const POOLS: &str = "{'pools':{'A':{'servers':['a:1','b:1']},'B':{'servers':['c:1']}},'route':";

#[test]
fn handles(rt: HostRuntime) {
    check_rows(&rt, HANDLES, &[POOLS], "}");
}

/// Rows of a key of a PoolRoute over pool A.
fn check_pool_rows(rt: &(impl AllocGlobal + Abort), rows: &str, key: &str) {
    let before = [POOLS, "{'type':'PoolRoute','pool':'A','", key, "':"];
    check_rows(rt, rows, &before, "}}");
}

#[test]
fn hashes_and_shadows(rt: HostRuntime) {
    check_pool_rows(&rt, HASHES, "hash");
    check_pool_rows(&rt, SHADOWS, "shadows");
}

/// Routes that are texts.
const SHORT_FORMS: &str = "\
null 0 = NullRoute
error 0 = ErrorRoute
error 0 = ErrorRoute|any | text
pool 0 = PoolRoute|A
5 at /route = PoolRoute|A|
all_sync 2 = AllSyncRoute|Pool|A
all_initial 2 = AllInitialRoute|Pool|A
all_async 2 = AllAsyncRoute|Pool|A
failover 2 = FailoverRoute|Pool|A
miss_failover 2 = MissFailoverRoute|Pool|A
failover 1 = FailoverRoute|Pool|B
all_sync 1 = AllSyncRoute|PoolRoute|A
all_async 1 = AllAsyncRoute|FailoverRoute|Pool|A
5 at /route = AllSyncRoute|Pool|Z
3 at /route = PoolRoute
3 at /route = AllSyncRoute
3 at /route = NullRoute|x
3 at /route = WarmUpRoute|NullRoute
3 at /route = OperationSelectorRoute
4 at /route = Pool|A
4 at /route = nullroute
4 at /route = AllSyncRoute|x";

/// Names of operations.
const OPERATIONS: &str = "\
operation_selector 1 = get
operation_selector 1 = gets
operation_selector 1 = set
operation_selector 1 = add
operation_selector 1 = replace
operation_selector 1 = append
operation_selector 1 = prepend
operation_selector 1 = cas
operation_selector 1 = delete
operation_selector 1 = touch
operation_selector 1 = incr
operation_selector 1 = decr
operation_selector 1 = lease-get
operation_selector 1 = lease-set
operation_selector 1 = metaget
2 at /route/operation_policies/gat = gat
2 at /route/operation_policies/Get = Get";

#[test]
fn short_forms_and_operations(rt: HostRuntime) {
    check_rows(&rt, SHORT_FORMS, &[POOLS, "'"], "'}");
    let before = ["{'route':{'type':'OperationSelectorRoute','operation_policies':{'"];
    check_rows(&rt, OPERATIONS, &before, "':'NullRoute'}}}");
}

/// Each name that is left out, where it is: the path of its fault, and the text with `~` in place of the name.
const LEFT_OUT: &str = "\
/route/type = {'route':{'type':'~'}} = RandomRoute LatestRoute AllFastestRoute AllMajorityRoute FailoverWithExptimeRoute HostIdRoute ModifyKeyRoute ModifyExptimeRoute RateLimitRoute OutstandingLimitRoute LoggingRoute DevNullRoute HashRoute
/route = {'route':'~'} = RandomRoute LatestRoute AllFastestRoute AllMajorityRoute FailoverWithExptimeRoute HostIdRoute ModifyKeyRoute ModifyExptimeRoute RateLimitRoute OutstandingLimitRoute LoggingRoute DevNullRoute HashRoute
/route = {'route':'~|Pool|A'} = RandomRoute LatestRoute HashRoute
/~ = {'~':1,'route':'NullRoute'} = macros named_handles key_fraction_range weights rates failover_errors keep_routing_prefix
/pools/A/~ = {'pools':{'A':{'servers':['a:1'],'~':1}},'route':'NullRoute'} = macros named_handles key_fraction_range weights rates failover_errors keep_routing_prefix
/routes/0/~ = {'routes':[{'~':1,'aliases':['/a/b/'],'route':'NullRoute'}]} = macros named_handles key_fraction_range weights rates failover_errors keep_routing_prefix
/route/~ = {'route':{'type':'NullRoute','~':1}} = macros named_handles key_fraction_range weights rates failover_errors keep_routing_prefix name
/route/hash/~ = {'route':{'type':'PoolRoute','pool':{'servers':['a:1']},'hash':{'~':1}}} = macros named_handles key_fraction_range weights rates failover_errors keep_routing_prefix
/route/shadows/0/~ = {'route':{'type':'PoolRoute','pool':{'servers':['a:1']},'shadows':[{'target':'NullRoute','index_range':[0,1],'~':[0,1]}]}} = macros named_handles key_fraction_range weights rates failover_errors keep_routing_prefix
/route/hash = {'route':{'type':'PoolRoute','pool':{'servers':['a:1']},'hash':'~'}} = Murmur WeightedCh3 ch3 crc32
/route/hash/hash_func = {'route':{'type':'PoolRoute','pool':{'servers':['a:1']},'hash':{'hash_func':'~'}}} = Murmur WeightedCh3 ch3 crc32
/route = {'route':'~'} = @import %macro% AllSyncRoute|@import AllSyncRoute|%macro PoolRoute|@pool PoolRoute|%pool FailoverRoute|Pool|@pool
/pools/A = {'pools':{'A':'~'},'route':'NullRoute'} = @import:a.json %macro% @ %
/route/pool = {'route':{'type':'PoolRoute','pool':'~'}} = @pool %pool%
/routes/0/route = {'routes':[{'aliases':['/a/b/'],'route':'~'}]} = @import %macro%
/route/children = {'route':{'type':'AllSyncRoute','children':'~'}} = @import %macro% Pool|@pool
/route/children/0 = {'route':{'type':'AllSyncRoute','children':['~']}} = @import %macro%
/routes/0/aliases/0 = {'routes':[{'aliases':['~'],'route':'NullRoute'}]} = /*/*/ /*/a/ /a/*/";

/// The fault of a name that is left out, where its path has `~` in place of the name.
fn left_out_at(rt: &(impl AllocGlobal + Abort), path: &str, name: &str) -> String {
    let (before, name, after) = match path.split_once('~') {
        Some((before, after)) => (before, name, after),
        None => (path, "", ""),
    };
    format!(in rt.alloc(); "10 at {before}{name}{after}").expect(rt, "memory")
}

/// Each name of a row has that fault.
fn check_names(rt: &(impl AllocGlobal + Abort), row: &str) {
    let (path, rest) = row.split_once(" = ").expect(rt, "a path");
    let (text, names) = rest.split_once(" = ").expect(rt, "names");
    let (before, after) = text.split_once('~').expect(rt, "a place");
    for name in names.split(' ') {
        let wanted = left_out_at(rt, path, name);
        check_between(rt, &[before], name, after, wanted.as_str());
    }
}

#[test]
fn what_is_left_out(rt: HostRuntime) {
    for row in LEFT_OUT.lines() {
        check_names(&rt, row);
    }
}

/// Faults and their paths.
const PATHS: &str = "\
2 at /a%20b%2F%25%C3%A9 = {'a b/%\u{e9}':1,'route':'NullRoute'}
2 at /~! = {'~!':1,'route':'NullRoute'}
2 at /pool = {'pool':{}}
2 at /route/children/1/children/0/x = {'route':{'type':'AllSyncRoute','children':['NullRoute',{'type':'FailoverRoute','children':[{'type':'NullRoute','x':1}]}]}}
4 at /route/type = {'route':{'type':'Foo'}}
4 at /route = {'route':'FooRoute'}
4 at /route = {'route':'AllSyncRoute|FailoverRoute|x'}";

#[test]
fn paths_of_faults(rt: HostRuntime) {
    check_rows(&rt, PATHS, &[], "");
}
