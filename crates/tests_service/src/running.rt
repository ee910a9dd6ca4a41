// A service with its workers.
//
// `starting` opens one, `trial` does what most tests ask of it, `reading` reads answers, `answers` makes each call, `ahead`
// hands texts in before their turn, `calls` has one client and then two in threads, `crowds` has sixteen, `gates` holds a
// worker, `devices` has devices that fail, `files` drops a service and opens its file again, `full` fills a library, and
// `memory` has allocations refused.

mod ahead;
mod answers;
mod calls;
mod crowds;
mod devices;
mod files;
mod full;
mod gates;
mod memory;
mod reading;
mod starting;
mod trial;
