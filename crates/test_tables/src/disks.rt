//! A room in tables over disks that fail from one of their calls on, or have a damaged byte.
mod files;
mod followers;
mod rooms;
mod scripts;
mod story;
mod trials;
