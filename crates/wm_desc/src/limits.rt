// How much there may be. These limits are this project's own.

/// How many objects of a kind there are at the most.
pub const MAX_OBJECTS: usize = 1000;

/// How many queue entries a description has at the most.
pub const MAX_QUEUES: usize = 100;

/// How many routing entries a description has at the most.
pub const MAX_ROUTES: usize = 999;

/// How many autostart entries a description has at the most.
pub const MAX_AUTOS: usize = 100;

/// How many prestart entries a description has at the most.
pub const MAX_PRES: usize = 100;
