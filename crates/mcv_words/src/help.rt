//! The texts of the help that the command line shows.

pub(crate) const ABOUT: &str =
    "Verifies configurations of mcrouter, the routing proxy for memcached.
`mcv check` decides whether a delete can be acknowledged that was never sent to
a server which can be read, `mcv draw` shows it in a picture, and `mcv mend`
adds the deletes that are missing. `mcv legs` shows to which servers a
configuration sends a request. `mcv run` serves clients by a configuration for
which that can't happen, and `mcv spool` shows the deletes that it keeps in a
file.";

pub(crate) const EXAMPLE: &str =
    "Examples: can a configuration lose a delete? Draw it, and write it with the
deletes that it lacks. Which servers does a delete of the key `a` reach? Serve
clients at port 5000.

  mcv check < mcrouter.json
  mcv draw < mcrouter.json > tree.svg
  mcv mend < mcrouter.json > mended.json
  (echo 'delete a'; cat mcrouter.json) | mcv legs
  mcv run --listen 127.0.0.1:5000 --spool mcv.spool --server-timeout 1000 \\
    < mcrouter.json

Exit status:
  0  done, or help or the version was asked for
  1  bad command line, or bad request line
  2  the configuration is refused, or has no route for the key
  3  the configuration can lose a delete (never with --cert: 5 then), and with
     `mcv mend` no change is found, or one is over a limit
  4  out of memory, or a device failed: reading, writing, the address, the spool
  5  the certificate is refused

Where the status is neither 0 nor 3, one line on standard error says why.";

pub(crate) const LEGS_ABOUT: &str = "Shows to which servers a request is sent at once";

pub(crate) const LEGS_FORM: &str =
    "Standard input has the request in its first line, and behind it the
configuration as JSON:

  delete a
  {\"pools\": {\"A\": {\"servers\": [\"a:11211\"]}}, \"route\": \"PoolRoute|A\"}

The request is an operation, one space and a key. The operations are get, gets,
set, add, replace, append, prepend, cas, delete, touch, incr and decr. The route
handles that are read are PoolRoute, NullRoute, ErrorRoute, AllSyncRoute,
AllInitialRoute, AllAsyncRoute, FailoverRoute, MissFailoverRoute, WarmUpRoute,
MigrateRoute, PrefixSelectorRoute and OperationSelectorRoute.

Standard output has a line for each leg (one request to one server) that is sent
before any server has answered, and then the reply that the client has by then:

  leg - a:11211 plain
  reply none

A leg has its place in the route (`-` is the top, `0.1` the second child of the
first), its server and its mark (`plain`; `async` where no reply waits for it;
`shadow` of a copy). The reply is `none` while it waits for a server, and else
`good`, `soft` (a miss, or nothing found or stored) or `error`.

A first line that isn't a request is reported as `mcv: bad request line`, and a
key with a routing prefix that selects no route of the configuration as
`mcv: no route`.

A configuration that isn't read is reported as
`mcv: configuration NUMBER at PATH`. The path leads to the value at fault by
keys and by list numbers from 0; `.` is the whole. The numbers:

   1  not JSON                          6  no servers, children, aliases, routes
   2  unknown key or operation name     7  over a limit
   3  missing, or of the wrong kind     8  bad server text (host:port is wanted)
   4  unknown route handle              9  an alias that comes twice
   5  unknown pool                     10  mcrouter's, but not read by mcv";

pub(crate) const CHECK_ABOUT: &str = "Decides whether a configuration can lose a delete";

pub(crate) const CHECK_FORM: &str =
    "Standard input has the configuration as JSON; `mcv legs --help` says which route
handles are read. A configuration is covered if at each moment at which a delete
has an answer that isn't an error, every server from which a get, gets, incr or
decr of the key could be answered has been sent a delete. That is decided for
all keys, all choices of a hash, and all moments: before, in and after each
migration. A read and a delete are judged at one stage of each migration, and
with `--window` at stages too that are no more seconds apart than it says: of
stages farther apart nothing is said. Nor is it said that a server takes what it
is sent, nor anything of values that are stored later, of reads by another
route, or of where mcrouter differs from mcv's rules.

Where it is covered, standard output has the number of pairs of a certificate,
and then the certificate, which says for each server that can be read why a
delete reaches it:

  covered 1
  mcv-cert 1
  0 = 0 - twin -
  end

A line has the number of the route, `=` and the word with which the keys begin
behind their routing prefix, the number of moments that migrations have passed,
the place of the leg that can be read, and a reason with the places of legs of
the delete:

  never          no delete is acknowledged here
  twin D         leg D has the same hash and servers as the leg that can be read
  same I D       leg D has the same hash, and at index I the same server
  all I D0 D1 .. the legs have one hash, D0 for its index 0, D1 for its index 1
                 and so on, and each has there the server that is at index I
                 of the leg that can be read

With a window over 0 the first line is `mcv-cert 2` with the window, and a line
has two numbers of moments: at the delete, and behind it at the get.

Any certificate can be checked again, also one that another program made:

  mcv check < mcrouter.json > verdict && tail -n +2 verdict > mcrouter.cert
  mcv check --cert mcrouter.cert < mcrouter.json

Standard output has `covered` and the number alone then. Where the configuration
isn't covered, the certificate is refused, and the exit status is 5.

Where it isn't covered and no certificate is given, the exit status is 3, and
standard output has a finding: a key, and answers by which it is read from the
server named after a delete of it was acknowledged that had never been sent
there:

  lost b:11211
  route 0
  class =
  era 0
  key /././!
  get 0=miss 1=hit
  delete 0=deleted

`route` is the number of the route. `class` has the word with which the keys
begin behind their routing prefix, and none for keys with no such word. `era` is
the number of moments that migrations have passed; where one starts at 0, no
moment has era 0, which is judged all the same. With a window it has two: the
delete's, and behind it the get's. For each hash over N servers, N
over 1, a line `index FUNC/SALT/N=I` behind the key says which index I, from 0,
it has to pick. `get`, or the first of `gets`, `incr` and `decr` that can be
answered from that place of the server where get can't, has for each leg that
answered its place and `hit`, `miss` or `error`; of incr and decr `number` or
`error`. `delete` has the places of the legs that answered `deleted` before the
reply, and `-` where the reply waits for none.

A certificate that isn't read is reported by a number and by the line at fault,
from 1, as `mcv: certificate text NUMBER line LINE`:

  1  the line breaks the form     3  the text is over 268435456 bytes
  2  the line is out of order

One that is read and doesn't fit, by its first fault in the order of the lines,
as `mcv: certificate fault NUMBER`:

  1  a server that can be read has no line
  2  a line for what can't be read
  3  a leg that not every delete that has a reply has sent
  4  another hash, number of legs or server than the line says
  5  `never`, where a delete can be acknowledged
  7  the certificate is for another window

A configuration that isn't read is reported as
`mcv: configuration NUMBER at PATH`: `mcv legs --help` has the numbers.";

pub(crate) const DRAW_ABOUT: &str = "Draws a configuration and what is found of it";

pub(crate) const DRAW_FORM: &str =
    "Standard input has the configuration as JSON; `mcv legs --help` says which route
handles are read. Standard output has a picture of its routes:

  mcv draw < mcrouter.json > tree.svg

A box is a route handle, a pool's with its first four servers, and stands below
the one that it is a child of; the word before its name is its policy, its side,
its number or, of a shadow, the indexes that it gets. Behind it stands, where it
is so:

  [delete]  an acknowledged delete was sent there (red, dashed)
  [read]    a get can be answered there (blue)
  [LOST]    the server that can be read though no delete was sent to it

Where a delete can be lost, the places of the finding that `mcv check` has are
drawn thick, and its text stands below the trees. [delete] and [read] are of the
finding's keys and era then, and else of all that the certificate names. Of more
than 60 children of a handle the first 60 are drawn, and those of the finding.

With `--dot` standard output has the same handles as a graph for Graphviz,
without the text below:

  mcv draw --dot < mcrouter.json | dot -Tpdf > tree.pdf

As with `mcv check` without `--window`, a read and a delete are judged at one
stage of each migration.

Exit status:
  0  drawn, also where a delete can be lost, or help was asked for
  1  bad command line
  2  the configuration is refused
  4  out of memory, or a device failed: standard input or standard output

A configuration that isn't read is reported as
`mcv: configuration NUMBER at PATH`: `mcv legs --help` has the numbers.";

pub(crate) const MEND_ABOUT: &str = "Adds the deletes that a configuration lacks";

pub(crate) const MEND_FORM: &str =
    "Standard input has the configuration as JSON; `mcv legs --help` says which route
handles are read. Where it can lose a delete, standard output has it with legs
added to its deletes, so that `mcv check` finds it covered:

  mcv mend < mcrouter.json > mended.json && diff mcrouter.json mended.json

What is written is what was read, with insertions: comments, order and spaces
stay. Legs are added and none is taken away; only deletes are sent otherwise
than before. The legs that keys of one class get are the least: with any of them
left out, a server could be read that misses a delete. A configuration that is
covered is written byte for byte. With `--patch` standard output has a JSON
patch in a line, of one operation, or of none where the configuration is
covered; it makes the same of the configuration without its comments. As with
`mcv check` without `--window`, a read and a delete are judged at one stage of
each migration.

Exit status:
  0  written, or help was asked for
  1  bad command line
  2  the configuration is refused
  3  nothing is written: no change is found, or it is over a limit
  4  out of memory, or a device failed: standard input or standard output

A configuration that isn't read is reported as
`mcv: configuration NUMBER at PATH`: `mcv legs --help` has the numbers. A mended
one that would be over a limit is reported as
`mcv: mended configuration 7 at PATH`, by its path in the mended one, and where
no change is found as `mcv: no change found`.";

pub(crate) const RUN_ABOUT: &str = "Serves clients by a configuration that can't lose a delete";

pub(crate) const RUN_FORM: &str =
    "Standard input has the configuration as JSON; `mcv legs --help` says which route
handles are read. It is judged first, as by `mcv check` with the same window:
where it can lose a delete, standard output has the finding and the exit status
is 3. Only then is the address bound, and the spool file opened, or made where
there is none.

  mcv run --listen 127.0.0.1:5000 --spool mcv.spool --server-timeout 1000 \\
    < mcrouter.json

Clients send requests of memcached's text protocol to the address. Standard
output has one line when they can connect, and one at the end:

  mcv listening 127.0.0.1:5000 pending 0
  mcv closed calls 12

The first has the address that was bound, and how many deletes are in the spool
file that weren't done. A session is a client's connection, from when it is
taken to when it is closed. `calls` is how many calls the sessions began: one
for each key of a request.

Each hub has its own connections to every server, and the keys whose hash names
it: requests for one key reach each server in one order. One thread serves all
of them, so that more make nothing faster; but a call that hangs keeps the
history of its own hub alone. A get of keys that have several hubs asks these
one after another.

A server that doesn't reply in its time has failed: the connection is closed,
what it was asked isn't sent again at once (a delete goes to the spool), and
after three failures in a row it is sent nothing until it answers a probe. It
may still perform what it was asked, also behind a later delete. Without
`--server-timeout` a server that takes connections and never answers keeps its
clients waiting, and in time those of all servers: a line on standard error says
so at the start.

Exit status:
  0  ended, or help was asked for
  1  bad command line
  2  the configuration is refused
  3  the configuration can lose a delete
  4  out of memory, or a device failed: an address that isn't one or can't be
     bound, the spool file, standard input or standard output

A configuration that isn't read is reported as
`mcv: configuration NUMBER at PATH`: `mcv legs --help` has the numbers.";

pub(crate) const SPOOL_ABOUT: &str = "Shows the deletes that a spool's file keeps";

pub(crate) const FILE: &str = "The file of the spool";

pub(crate) const SPOOL_FORM: &str =
    "Standard output has a line for each record that is pending, in the order of the
records' numbers, and a last one with the count of all records of the file and
of the pending ones:

  0 pending a:11211 a
  records 3 pending 1

That is number, state (`pending`, or `done` with `--all`), server and key
without its routing prefix. In the key a byte outside 33 to 126, and `%`, is
written as `%` with two hexadecimal digits.

The file is only read, and not locked: a proxy may be using it. What that writes
meanwhile may or may not be shown.

Exit status:
  0  done, or help was asked for
  1  bad command line
  4  out of memory, or a device failed: the file can't be read, or standard
     output can't be written; or `mcv: slot NUMBER of the spool is damaged`,
     behind the lines of the records before it";
