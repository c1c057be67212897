//! Parts of the texts of instances and of documents.

/// Three stops, and the ways between them.
pub const STOPS: &str = "instance,1\nstop,D\nstop,P\nstop,Q\ndeadhead,D,P,10,0\ndeadhead,P,D,10,0\n\
    deadhead,D,Q,10,0\ndeadhead,Q,D,10,0\ndeadhead,P,Q,15,0\ndeadhead,Q,P,15,0\n";

/// The same in version 2.
pub const RESTING_STOPS: &str =
    "instance,2\nstop,D\nstop,P\nstop,Q\ndeadhead,D,P,10,0\ndeadhead,P,D,10,0\n\
    deadhead,D,Q,10,0\ndeadhead,Q,D,10,0\ndeadhead,P,Q,15,0\ndeadhead,Q,P,15,0\n";

/// Two vehicles whose depot is at D.
pub const LAYER: &str = "layer,L1,D,2,1000,1,0\n";

/// The same in version 2: they rest in the depot for 20 minutes at least.
pub const RESTING_LAYER: &str = "layer,L1,D,2,1000,1,0,20\n";

/// The same with one vehicle.
pub const ONE_VEHICLE: &str = "layer,L1,D,1,1000,1,0\n";

/// Two trips that follow each other at once.
pub const TRIPS: &str = "trip,t1,P,8:00,Q,8:30,0,L1\ntrip,t2,Q,8:30,P,9:00,0,L1\n";

/// The same, where the second starts a minute too early.
pub const LATE_TRIPS: &str = "trip,t1,P,8:00,Q,8:30,0,L1\ntrip,t2,Q,8:29,P,9:00,0,L1\n";

/// The same, where the second starts at noon: long enough for a rest in the depot.
pub const NOON_TRIPS: &str = "trip,t1,P,8:00,Q,8:30,0,L1\ntrip,t2,Q,12:00,P,12:30,0,L1\n";

/// With a first trip that ends as late as a time may be.
pub const LONG_TRIPS: &str = "trip,t1,P,8:00,Q,47:59,0,L1\ntrip,t2,Q,8:30,P,9:00,0,L1\n";

/// A document in which one vehicle runs both trips: its head, its block, its table and its tree.
pub const HEAD: &str = "result,1,optimal\ncost,1080\nbound,1080\nnodes,1\n";

pub const BLOCK: &str = "block,L1,t1,t2\n";

pub const TABLE: &str = "table,1,cost\nfleet,L1,0\nprice,L1,t1,1010000,0\nprice,L1,t2,0,-10000\n";

pub const END: &str = "leaf,1\nend\n";

/// A document in which one vehicle runs both trips and rests in between: its head and its table.
pub const NOON_HEAD: &str = "result,1,optimal\ncost,1100\nbound,1100\nnodes,1\n";

pub const NOON_TABLE: &str =
    "table,1,cost\nfleet,L1,0\nprice,L1,t1,1010000,0\nprice,L1,t2,20000,-10000\n";

/// A table of zeros.
pub const ZERO_TABLE: &str = "table,1,cost\nfleet,L1,0\nprice,L1,t1,0,0\nprice,L1,t2,0,0\n";

/// A table that breaks between the two trips.
pub const BROKEN_TABLE: &str =
    "table,1,cost\nfleet,L1,0\nprice,L1,t1,1010000,-1\nprice,L1,t2,0,-10000\n";

/// A table with one more for entering t1 than its pull-out costs.
pub const TABLE_TOO_HIGH: &str =
    "table,1,cost\nfleet,L1,0\nprice,L1,t1,1010001,0\nprice,L1,t2,0,-10000\n";

/// The head of a document of which its blocks or its table alone are looked at.
pub const OPEN_HEAD: &str = "result,1,open\ncost,0\nbound,0\nnodes,0\n";

/// A head without a plan, and the ray that shows that there is none for one vehicle and trips that don't follow.
pub const SHORT_HEAD: &str = "result,1,infeasible\ncost,none\nbound,none\nnodes,1\n";

pub const RAY: &str = "table,1,ray\nfleet,L1,1\nprice,L1,t1,1,0\nprice,L1,t2,1,0\n";

/// The stops, the layer and the trips with quotes, a byte order mark, and lines that end otherwise.
pub const QUOTED_STOPS: &str =
    "\u{feff}instance,\"1\"\r\n\"stop\",\"D\"\r\nstop,P\r\n\r\nstop,Q\r\n\
    deadhead,D,P,10,0\r\ndeadhead,P,D,10,0\r\n\
    deadhead,D,Q,10,0\r\ndeadhead,Q,D,10,0\r\ndeadhead,P,Q,15,0\r\ndeadhead,Q,P,15,0\r\n";

pub const QUOTED_LAYER: &str = "\"layer\",L1,D,\"2\",1000,1,0\r\n";

pub const QUOTED_TRIPS: &str =
    "trip,t1,P,\"8:00\",Q,8:30,0,L1\r\ntrip,\"t2\",Q,8:30,P,9:00,0,\"L1\"";

/// Another layer, whose depot is at P, trips of one layer each, and a table of zeros for them.
pub const OTHER_LAYER: &str = "layer,L2,P,2,1000,1,0\n";

pub const TRIPS_APART: &str = "trip,t1,P,8:00,Q,8:30,0,L1\ntrip,t2,Q,8:30,P,9:00,0,L2\n";

pub const TABLE_APART: &str =
    "table,1,cost\nfleet,L1,0\nprice,L1,t1,0,0\nfleet,L2,0\nprice,L2,t2,0,0\n";

/// The document of a timetable without trips.
pub const NO_TRIP_HEAD: &str = "result,1,optimal\ncost,0\nbound,0\nnodes,0\n";

pub const NO_TRIP_TABLE: &str = "table,1,cost\nfleet,L1,0\n";

/// Two layers, either of which may run the one trip at the same cost, and a document of it.
pub const TWO_LAYERS: &str =
    "layer,L1,D,1,450,1,0\nlayer,L2,P,1,455,1,0\ntrip,t1,P,8:00,Q,8:30,0,L1,L2\n";

pub const SPLIT_HEAD: &str = "result,1,optimal\ncost,500\nbound,500\nnodes,3\nblock,L1,t1\n";

pub const SPLIT_TABLE: &str =
    "table,1,cost\nfleet,L1,0\nprice,L1,t1,460000,-10000\nfleet,L2,0\nprice,L2,t1,455000,-15000\n";

/// Six trips in three pairs of layers of one vehicle each. Halves of blocks cover them all, and no blocks do.
pub const HALVES: [&str; 4] = [
    "instance,1\nstop,D\nstop,X1\nstop,X2\nstop,X3\nstop,Y1\nstop,Y2\nstop,Y3\n",
    "deadhead,X1,Y1,10,0\ndeadhead,X1,Y3,10,0\ndeadhead,X2,Y2,10,0\ndeadhead,X2,Y3,10,0\n\
        deadhead,X3,Y1,10,0\ndeadhead,X3,Y2,10,0\n",
    "layer,L1,D,1,0,1,0\nlayer,L2,D,1,0,1,0\nlayer,L3,D,1,0,1,0\n",
    "trip,a,D,8:00,X1,8:30,0,L1,L2\ntrip,b,D,8:00,X2,8:30,0,L1,L3\ntrip,c,D,8:00,X3,8:30,0,L2,L3\n\
        trip,d,Y1,9:00,D,9:30,0,L1,L2\ntrip,e,Y2,9:00,D,9:30,0,L1,L3\ntrip,f,Y3,9:00,D,9:30,0,L2,L3\n",
];
